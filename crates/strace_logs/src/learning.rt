//! A bundle from logs.
ghost use Rattle.std.specs.Prelude.{◌≡◌, ℕ, List, IfOk, true, false, string_bytes};
ghost use Rattle.machines.specs.declared.arch.Arch.{Arch};
ghost use Rattle.strace_logs.specs.inner.Seen.{IsWeighed};
ghost use Rattle.strace_logs.specs.Taken.{AreTaken, HaveShown, lines_in};
ghost use Rattle.strace_logs.specs.Learned.{TellsLearned};
ghost use Rattle.wording.specs.Told.{was_done};

use crate::bundle::{bundle_of, machines_of};
use crate::calls::{Calls, MOST_KEPT, Seen};
use crate::judging::{allows_seen, are_named, is_rest};
use crate::lists::{Otherwise, Runtime};
use crate::names::names_of;
use crate::reading::Shown;
use crate::telling::put_learned;
use crate::wish::Wish;
use machines::Arch;
use profile::Profile;
use profile_json::{ProfileError, read_bundle};
use std::alloc::{AllocError, Global};
use wording::{End, Told, refused_profile};

/// What logs give: the bundle, or why there is none, and what is told of it, a line each.
#[derive(Drop)]
pub struct Learned {
    pub told: Told,
    pub lines: String,
}

// The line that tells why there is no bundle.
fn refused(alloc: Global, what: &str, name: &str, why: &str, end: End) -> Result<Told, AllocError>
    requires { was_done end ≡ false }
    ensures { IfOk result (λ told. was_done told.end ≡ false) }
{
    let line = format!(in alloc; "refused {what} {name}: {why}\n")?;
    Ok(Told {
        bytes: line.into_bytes(),
        end,
    })
}

// The bundle whose text means a profile. It is returned if the profile allows each call that was gathered and names no other calls than it
// may. It must also have the default that was asked for.
fn weighed(
    alloc: Global,
    profile: &Profile,
    seen: &[Seen],
    runtime: Option<Runtime>,
    otherwise: Otherwise,
    text: String,
) -> Result<Told, AllocError>
    ensures { (native : Arch) (texts : List (List ℕ)) → AreTaken native (lines_in texts) seen.now
        → IfOk result (λ told. was_done told.end ≡ true
        → IsWeighed native profile.now texts runtime otherwise (string_bytes text) told.bytes.items) }
{
    if !allows_seen(profile, seen) {
        return refused(
            alloc,
            "bundle",
            "",
            "it does not allow each record",
            End::No,
        );
    }
    if !are_named(seen, runtime, profile.rules()) {
        return refused(
            alloc,
            "bundle",
            "",
            "it names a call that no log shows",
            End::No,
        );
    }
    if !is_rest(profile, otherwise) {
        return refused(alloc, "bundle", "", "it has another default", End::No);
    }
    Ok(Told {
        bytes: text.into_bytes(),
        end: End::Done,
    })
}

// The bundle, once it was read and weighed, or why it is refused.
fn judged(
    alloc: Global,
    native: Arch,
    seen: &[Seen],
    runtime: Option<Runtime>,
    otherwise: Otherwise,
    text: String,
) -> Result<Told, AllocError>
    ensures { (texts : List (List ℕ)) → AreTaken native (lines_in texts) seen.now
        → IfOk result (TellsLearned native texts runtime otherwise) }
{
    match read_bundle(alloc, text.as_bytes(), native) {
        Ok(read) => {
            let told = weighed(alloc, &read.profile, seen, runtime, otherwise, text)?;
            Ok(told)
        }
        Err(error) => refused_profile(alloc, error),
    }
}

// What tells that a log has no record.
fn no_record(alloc: Global, name: &str) -> Result<Told, AllocError>
    ensures { IfOk result (λ told. was_done told.end ≡ false) }
{
    let why = "no line tells a call: it is no log of strace -f -n -e raw=all";
    refused(alloc, "log", name, why, End::Refused)
}

// The text of the bundle of calls for machines; and adds what is told of it.
fn text_on(
    alloc: Global,
    machines: &[Arch],
    calls: &Calls,
    wish: &Wish<'_>,
    lines: &mut String,
) -> Result<String, AllocError> {
    let keeps = &wish.keeps;
    let names = names_of(alloc, machines, keeps, calls, wish.runtime, wish.otherwise)?;
    put_learned(lines, machines, keeps, calls, &names, wish.runtime)?;
    bundle_of(alloc, machines, keeps, calls, &names, wish.otherwise)
}

// The text of the bundle, for the machines of the calls and the machines that are asked for. Adds what is told of it.
fn text_for(
    alloc: Global,
    native: Arch,
    calls: &Calls,
    wish: &Wish<'_>,
    lines: &mut String,
) -> Result<String, AllocError> {
    let machines = machines_of(alloc, native, calls, &wish.machines)?;
    text_on(alloc, &machines, calls, wish, lines)
}

// The bundle of the calls that logs show, of which not too many values are kept, and what is told of it.
fn learn_calls(
    alloc: Global,
    native: Arch,
    calls: &Calls,
    wish: &Wish<'_>,
    lines: &mut String,
) -> Result<Told, AllocError>
    ensures { (texts : List (List ℕ)) → AreTaken native (lines_in texts) calls.now.seen.items
        → IfOk result (TellsLearned native texts wish.now.runtime wish.now.otherwise) }
{
    if calls.kept.len() >= MOST_KEPT {
        return refused_profile(alloc, ProfileError::TooMany);
    }
    let text = text_for(alloc, native, calls, wish, lines)?;
    judged(
        alloc,
        native,
        &calls.seen,
        wish.runtime,
        wish.otherwise,
        text,
    )
}

// The bundle of what logs show, and what is told of it; or what tells that a log has no record.
fn learn_shown(
    alloc: Global,
    native: Arch,
    shown: &Shown,
    wish: &Wish<'_>,
    lines: &mut String,
) -> Result<Told, AllocError>
    ensures { (texts : List (List ℕ)) → HaveShown native texts shown.now
        → IfOk result (TellsLearned native texts wish.now.runtime wish.now.otherwise) }
{
    if shown.is_lacking {
        return no_record(alloc, &shown.lacking);
    }
    learn_calls(alloc, native, &shown.calls, wish, lines)
}

/// Makes a bundle, which is read for a native machine, that allows what logs show.
pub fn learn(
    alloc: Global,
    native: Arch,
    shown: &Shown,
    wish: &Wish<'_>,
) -> Result<Learned, AllocError>
    ensures { (texts : List (List ℕ)) → HaveShown native texts shown.now
        → IfOk result (λ learned. TellsLearned native texts wish.now.runtime wish.now.otherwise learned.told) }
{
    let mut lines = String::new(alloc);
    shown.unread.put(&mut lines)?;
    let told = learn_shown(alloc, native, shown, wish, &mut lines)?;
    Ok(Learned { told, lines })
}
