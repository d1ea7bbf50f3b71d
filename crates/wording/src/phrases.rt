//! Verdicts and conditions as texts.
ghost use Rattle.std.specs.Prelude.{◌≡◌};
ghost use Rattle.wording.specs.Phrases as spec;

use call_record::Word;
use profile::{Cond, Op};
use std::fmt;

/// The name of a verdict's action.
fn action_name(word: Word) -> &'static str
    ensures { result.now ≡ spec.action_name word }
{
    match word.action() {
        Word::KILL_PROCESS => "KILL_PROCESS",
        Word::KILL_THREAD => "KILL_THREAD",
        Word::TRAP => "TRAP",
        Word::ERRNO => "ERRNO",
        Word::USER_NOTIF => "USER_NOTIF",
        Word::TRACE => "TRACE",
        Word::LOG => "LOG",
        Word::ALLOW => "ALLOW",
        _ => "UNKNOWN",
    }
}

/// A verdict, told by its action, and by its data where they are not 0.
#[derive(Clone, Copy)]
pub struct ActionText(pub Word);

impl fmt::Display for ActionText {
    ghost use Rattle.std.specs.Prelude.{Some};
    ghost use Rattle.wording.specs.Phrases.{action_text};

    ghost output = { λ told. Some (action_text told.0) };

    fn fmt<W: fmt::Write>(&self, f: &mut fmt::Formatter<W>) -> fmt::Result {
        let word = self.0;
        let name = action_name(word);
        let datum = word.data();
        if datum == 0 {
            return write!(f, "{name}");
        }
        write!(f, "{name} {datum}")
    }
}

fn sign(op: Op) -> &'static str
    ensures { result.now ≡ spec.sign_of op }
{
    match op {
        Op::Ne => "!=",
        Op::Lt => "<",
        Op::Le => "<=",
        Op::Eq => "==",
        Op::Ge => ">=",
        Op::Gt => ">",
        Op::MaskedEq => "&",
    }
}

fn is_masked(op: Op) -> bool
    ensures { result ≡ spec.is_masked op }
{
    matches!(op, Op::MaskedEq)
}

/// A condition in the signs of the field, as `arg2 <= 4096` and `arg0 & 0x10000000 == 0x0`.
#[derive(Clone, Copy)]
pub struct ConditionText<'a>(pub &'a Cond);

impl fmt::Display for ConditionText<'_> {
    ghost use Rattle.std.specs.Prelude.{Some};
    ghost use Rattle.wording.specs.Phrases.{condition_text};

    ghost output = { λ told. Some (condition_text told.0.now) };

    fn fmt<W: fmt::Write>(&self, f: &mut fmt::Formatter<W>) -> fmt::Result {
        let Cond {
            index,
            op,
            value,
            datum,
        } = *self.0;
        if is_masked(op) {
            return write!(f, "arg{index} & 0x{value:x} == 0x{datum:x}");
        }
        let sign = sign(op);
        write!(f, "arg{index} {sign} {value}")
    }
}
