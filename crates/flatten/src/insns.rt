//! Single instructions.
ghost use Rattle.std.specs.Prelude.{◌≡◌};
ghost use Rattle.flatten.specs.Unflat.{is_plain, is_return};
ghost use Rattle.flatten.specs.inner.Turns as spec;

use bpf_insn::{Insn, Operation};
use call_record::{Word, stricter};

/// The instruction with these fields.
pub(crate) fn insn(code: u16, k: u32) -> Insn
    ensures { result ≡ spec.insn code 0 0 k }
{
    Insn {
        code,
        jt: 0,
        jf: 0,
        k,
    }
}

/// The return of a number.
pub fn return_of(k: u32) -> Insn
    ensures { result ≡ spec.return_of k }
{
    insn(0x06, k)
}

/// Whether an instruction returns its own number.
pub fn is_return(insn: &Insn) -> bool
    ensures { result ≡ is_return insn.now }
{
    match insn.operation() {
        Some(Operation::ReturnK) => true,
        _ => false,
    }
}

/// Whether an instruction writes no scratch word, and returns nothing but its own number.
pub(crate) fn is_plain(insn: &Insn) -> bool
    ensures { result ≡ is_plain insn.now }
{
    match insn.operation() {
        Some(Operation::Store) => false,
        Some(Operation::StoreX) => false,
        Some(Operation::ReturnA) => false,
        _ => true,
    }
}

/// The verdict that counts of two.
pub(crate) fn both(newer: u32, older: u32) -> u32
    ensures { result ≡ spec.both newer older }
{
    stricter(Word(newer), Word(older)).0
}
