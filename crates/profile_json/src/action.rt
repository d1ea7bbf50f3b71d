//! Actions, and the verdict of each.
ghost use Rattle.std.specs.Prelude.{◌≡◌, ◌≤◌, ◌++◌, IfOk};
ghost use Rattle.serde_json.specs.View.{view};
ghost use Rattle.profile_json.specs.Lookup.{member, whole};
ghost use Rattle.profile_json.specs.Names as spec;
ghost use Rattle.profile_json.specs.inner.Outcome.{Gives};
ghost use Rattle.profile_json.specs.inner.Reading as read;

use crate::fault::ProfileError;
use crate::key::{self, ACTION, DEFAULT_ACTION, DEFAULT_ERRNO_RET, ERRNO_RET};
use crate::lookup::{text_at, whole_if_there};
use call_record::Word;
use machines::Family;
use serde_json::Value;

/// What is done with a call.
#[derive(Clone, Copy)]
pub enum Action {
    KillThread,
    KillProcess,
    Trap,
    Errno,
    Trace,
    Log,
    Allow,
    Notify,
}

/// The action of a name that each family reads.
fn common_action(name: &str) -> Option<Action>
    ensures { result ≡ spec.named spec.actions name.now }
{
    match name {
        key::KILL => Some(Action::KillThread),
        key::KILL_PROCESS => Some(Action::KillProcess),
        key::TRAP => Some(Action::Trap),
        key::ERRNO => Some(Action::Errno),
        key::TRACE => Some(Action::Trace),
        key::LOG => Some(Action::Log),
        key::ALLOW => Some(Action::Allow),
        _ => None,
    }
}

/// The action of a name that whole tables read.
fn whole_action(name: &str) -> Option<Action>
    ensures { result ≡ spec.named (spec.actions ++ spec.more_actions) name.now }
{
    match name {
        key::KILL_THREAD => Some(Action::KillThread),
        key::NOTIFY => Some(Action::Notify),
        _ => common_action(name),
    }
}

/// The action of a name.
#[tactic(auto, unfolding(crate::specs::Names::action_named))]
fn action_named(name: &str, family: Family) -> Option<Action>
    ensures { result ≡ spec.action_named family name.now }
{
    match family {
        Family::Chosen => common_action(name),
        Family::Whole => whole_action(name),
    }
}

impl Action {
    ghost use Rattle.std.specs.Prelude.{◌≡◌, ◌≤◌};
    ghost use Rattle.profile_json.specs.Names.{takes_data, verdict_of};

    /// Whether the text may give data.
    fn takes_data(self) -> bool
        ensures { result ≡ takes_data self }
    {
        match self {
            Action::Errno | Action::Trace => true,
            _ => false,
        }
    }

    /// The verdict, with these data where the action takes them.
    fn verdict(self, errno: u16) -> Word
        requires { errno ≤ 4095 }
        ensures { result ≡ verdict_of self errno }
    {
        match self {
            Action::KillThread => Word::KILL_THREAD,
            Action::KillProcess => Word::KILL_PROCESS,
            Action::Trap => Word::TRAP,
            Action::Errno => Word::ERRNO.with_data(errno),
            Action::Trace => Word::TRACE.with_data(errno),
            Action::Log => Word::LOG,
            Action::Allow => Word::ALLOW,
            Action::Notify => Word::USER_NOTIF,
        }
    }
}

#[tactic(auto, unfolding(crate::specs::inner::Reading::action_at))]
fn action_at(value: &Value, key: &str, family: Family) -> Result<Action, ProfileError>
    ensures { Gives (λ a. a) result (read.action_at family key.now (view value.now)) }
{
    let name = text_at(value, key)?;
    action_named(name, family).ok_or(ProfileError::UnknownAction)
}

/// The data under a key, 1 where it is missing.
fn errno_at(value: &Value, key: &str, action: Action) -> Result<u16, ProfileError>
    ensures reading { Gives (λ n. n) result (read.errno_in action (member whole key.now (view value.now))) }
    ensures small { IfOk result (λ n. n ≤ 4095) }
{
    match whole_if_there(value, key)? {
        None => Ok(1),
        Some(_) if !action.takes_data() => Err(ProfileError::ErrnoNotTaken),
        Some(number) if number <= 4095 => Ok(number as u16),
        Some(_) => Err(ProfileError::ErrnoRange),
    }
}

/// The verdict of the action under one key, with the data under another.
#[tactic(auto, unfolding(crate::specs::inner::Reading::verdict_at))]
fn verdict_at(
    value: &Value,
    action_key: &str,
    errno_key: &str,
    family: Family,
) -> Result<Word, ProfileError>
    ensures { Gives (λ w. w) result (read.verdict_at family action_key.now errno_key.now (view value.now)) }
{
    let action = action_at(value, action_key, family)?;
    let errno = errno_at(value, errno_key, action)?;
    Ok(action.verdict(errno))
}

/// The verdict of calls that no rule matches.
#[tactic(auto, unfolding(crate::specs::inner::Reading::default_of))]
pub(crate) fn default_of(seccomp: &Value, family: Family) -> Result<Word, ProfileError>
    ensures { Gives (λ w. w) result (read.default_of family (view seccomp.now)) }
{
    verdict_at(seccomp, DEFAULT_ACTION, DEFAULT_ERRNO_RET, family)
}

/// The verdict of an entry.
#[tactic(auto, unfolding(crate::specs::inner::Reading::entry_verdict))]
pub(crate) fn verdict_of(entry: &Value, family: Family) -> Result<Word, ProfileError>
    ensures { Gives (λ w. w) result (read.entry_verdict family (view entry.now)) }
{
    verdict_at(entry, ACTION, ERRNO_RET, family)
}
