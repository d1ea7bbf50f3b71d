//! Which calls may be left aside.
ghost use Rattle.std.specs.Prelude.{◌≡◌, ◌↔◌, IfSome, IsTrue};
ghost use Rattle.call_record.specs.Record.{words};
ghost use Rattle.compare.specs.Stub.{IsOf};
ghost use Rattle.aside.specs.Named.{IsNamed, MayBeAside, Names, call_of, x32_calls};

use crate::leave::Leave;
use call_record::Record;
use call_tables::call_name;
use compare::Calls;
use machines::{Arch, Family, LEAST_X32_NUMBER, Numbers};

// The calls of x32.
fn x32_calls() -> Calls
    ensures { result ≡ x32_calls }
{
    Calls {
        token: Arch::LinuxX32.token(),
        numbers: Numbers {
            first: LEAST_X32_NUMBER,
            last: 0x7fff_ffff,
        },
    }
}

// The call of one number.
fn call_of(token: u32, number: u32) -> Calls
    ensures { result ≡ call_of token number }
{
    Calls {
        token,
        numbers: Numbers {
            first: number,
            last: number,
        },
    }
}

// Whether a machine has this token, and its table a call of this number.
fn names(token: u32, number: u32, arch: Arch) -> bool
    ensures { IsTrue result ↔ Names token number arch }
{
    if arch.token() != token {
        return false;
    }
    call_name(arch, number).is_some()
}

// Whether a machine of the family does.
fn is_named(family: Family, token: u32, number: u32) -> bool
    ensures { IsTrue result ↔ IsNamed family token number }
{
    family
        .machines()
        .iter()
        .any(|arch| names(token, number, *arch))
}

// The call of a record's number, if these may be left aside and no table of the family has it.
fn unnamed_of(family: Family, leave: Leave, call: &Record) -> Option<Calls>
    ensures may { IfSome result (MayBeAside family leave) }
    ensures is_of { IfSome result (IsOf (words call.now)) }
{
    if !leave.unnamed {
        return None;
    }
    if is_named(family, call.arch, call.nr) {
        return None;
    }
    Some(call_of(call.arch, call.nr))
}

/// The calls that may be left aside for the sake of a record, which is of one of them.
pub(crate) fn aside_for(family: Family, leave: Leave, call: &Record) -> Option<Calls>
    ensures may { IfSome result (MayBeAside family leave) }
    ensures is_of { IfSome result (IsOf (words call.now)) }
{
    let x32 = x32_calls();
    if leave.x32 {
        if x32.have(call) {
            return Some(x32);
        }
    }
    unnamed_of(family, leave, call)
}
