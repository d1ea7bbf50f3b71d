//! What is known after an instruction, and on an edge of a conditional jump.
ghost use Rattle.std.specs.Prelude.{◌≡◌};
ghost use Rattle.bpf_insn.specs.Causes.{IsPlain};
ghost use Rattle.bpf_insn.specs.Code.{operation_of};
ghost use Rattle.cert_state.specs.Transfer.{certain_fact, computed_value, masked_fact, operand_value};
ghost use Rattle.cert_state.specs.Transfer.{edge_fact as fact_of, test_fact as fact_of_test, transfer as regs_after};
ghost use Rattle.cert_state.specs.inner.Compared.{compared_by};

use crate::literal::{AVal, Lit, Regs};
use crate::state::State;
use bpf_insn::{Arithmetic, Insn, Operand, Operation, Test};

// A literal that is true of no record.
pub(crate) const FALSE: Lit = Lit::In(0, 1, 0);

// What is known of the second operand.
fn value(operand: Operand, insn: &Insn, regs: &Regs) -> AVal
    ensures { result ≡ operand_value operand insn.now regs.now }
{
    match operand {
        Operand::K => AVal::Const(insn.k),
        Operand::X => regs.x,
    }
}

// What is known of what is computed.
fn compute(f: Arithmetic, a: AVal, operand: AVal) -> AVal
    ensures { result ≡ computed_value f a operand }
{
    match (f, a, operand) {
        (_, AVal::Const(a), AVal::Const(c)) => AVal::Const(f.compute(a, c)),
        (Arithmetic::And, AVal::Masked(w, m), AVal::Const(c)) => AVal::Masked(w, m & c),
        _ => AVal::Unknown,
    }
}

/// What is known of the registers after an instruction, which the kernel refuses for no cause of its
/// own.
pub fn transfer<S: State>(state: &S, insn: &Insn) -> Regs
    requires { IsPlain insn.now }
    ensures { result ≡ regs_after (S.regs state.now) insn.now }
{
    let mut regs = state.regs();
    let k = insn.k;
    match insn.operation() {
        None => unreachable!(),
        Some(Operation::LoadWord) => regs.a = AVal::Masked((k / 4) as u8, u32::MAX),
        Some(Operation::LoadScratch) => regs.a = regs.scratch[k as usize],
        Some(Operation::LoadScratchX) => regs.x = regs.scratch[k as usize],
        Some(Operation::Store) => regs.scratch[k as usize] = regs.a,
        Some(Operation::StoreX) => regs.scratch[k as usize] = regs.x,
        Some(Operation::SetA) => regs.a = AVal::Const(k),
        Some(Operation::SetX) => regs.x = AVal::Const(k),
        Some(Operation::Compute(f, operand)) => {
            regs.a = compute(f, regs.a, value(operand, insn, &regs));
        }
        Some(Operation::ShiftLeft) => regs.a = match regs.a {
            AVal::Const(a) => AVal::Const(a.wrapping_shl(k)),
            _ => AVal::Unknown,
        },
        Some(Operation::ShiftRight) => regs.a = match regs.a {
            AVal::Const(a) => AVal::Const(a >> k),
            _ => AVal::Unknown,
        },
        Some(Operation::Negate) => regs.a = match regs.a {
            AVal::Const(a) => AVal::Const(0u32.wrapping_sub(a)),
            _ => AVal::Unknown,
        },
        Some(Operation::CopyToX) => regs.x = regs.a,
        Some(Operation::CopyToA) => regs.a = regs.x,
        Some(Operation::ReturnK | Operation::ReturnA | Operation::Jump | Operation::Branch(..)) =>
            {}
    }
    regs
}

// What is known where a comparison of two constants came out so.
fn certain(holds: bool) -> Option<Lit>
    ensures { result ≡ certain_fact holds }
{
    if holds { None } else { Some(FALSE) }
}

/// What is known where a comparison of a word under a mask came out so.
pub(crate) fn masked(test: Test, word: u8, mask: u32, c: u32, taken: bool) -> Option<Lit>
    ensures { result ≡ masked_fact test word mask c taken }
{
    let whole = mask == u32::MAX;
    match test {
        Test::Equal if c & mask == c => Some(if taken {
            Lit::Bits(word, mask, c)
        } else {
            Lit::NotBits(word, mask, c)
        }),
        Test::Equal => certain(!taken),
        Test::AnyBit if taken => Some(Lit::NotBits(word, mask & c, 0)),
        Test::AnyBit => Some(Lit::Bits(word, mask & c, 0)),
        Test::Greater | Test::AtLeast if !whole => None,
        Test::Greater if taken => Some(
            c.checked_add(1)
                .map_or(FALSE, |from| Lit::In(word, from, u32::MAX)),
        ),
        Test::Greater => Some(Lit::In(word, 0, c)),
        Test::AtLeast if taken => Some(Lit::In(word, c, u32::MAX)),
        Test::AtLeast => Some(c.checked_sub(1).map_or(FALSE, |to| Lit::In(word, 0, to))),
    }
}

/// What is known where a comparison of A with its operand came out so.
pub(crate) fn test_fact(test: Test, a: AVal, operand: AVal, taken: bool) -> Option<Lit>
    ensures { result ≡ fact_of_test test a operand taken }
{
    match (a, operand) {
        (AVal::Const(a), AVal::Const(c)) => certain(test.holds(a, c) == taken),
        (AVal::Masked(word, mask), AVal::Const(c)) => masked(test, word, mask, c, taken),
        _ => None,
    }
}

/// What an instruction compares, if it is a conditional jump: its test, and what is known of A and of its operand.
pub(crate) fn compared(regs: &Regs, insn: &Insn) -> Option<(Test, AVal, AVal)>
    ensures { result ≡ compared_by (operation_of insn.now.code) insn.now regs.now }
{
    let Some(Operation::Branch(test, operand)) = insn.operation() else {
        return None;
    };
    Some((test, regs.a, value(operand, insn, regs)))
}

/// What is known on an edge of a conditional jump, by what is known of the registers. It is the edge that is taken if the
/// test holds, or the other one.
pub fn edge_fact_by(regs: &Regs, insn: &Insn, taken: bool) -> Option<Lit>
    ensures { result ≡ fact_of regs.now insn.now taken }
{
    let (test, a, operand) = compared(regs, insn)?;
    test_fact(test, a, operand, taken)
}

/// The same at a state.
pub fn edge_fact<S: State>(state: &S, insn: &Insn, taken: bool) -> Option<Lit>
    ensures { result ≡ fact_of (S.regs state.now) insn.now taken }
{
    edge_fact_by(&state.regs(), insn, taken)
}
