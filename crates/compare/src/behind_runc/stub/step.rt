//! One instruction of a stub.
ghost use Rattle.std.specs.Prelude.{◌≡◌, ◌≤◌, ℕ, List, MatchOption, IfSome};
ghost use Rattle.bpf_insn.specs.Machine.{holds, step};
ghost use Rattle.call_record.specs.Words.{IsRecord, word};
ghost use Rattle.compare.specs.inner.Path.{IsIn, IsPartOf, IsSome, a_of, holding, step_of};

use crate::behind_runc::stub::compare::compare;
use crate::behind_runc::stub::region::Region;
use bpf_insn::{Insn, Operand, Operation, Test};

/// What the register A holds.
#[derive(Clone, Copy, Debug, PartialEq, Eq)]
pub(crate) enum Held {
    /// 0, as at the start.
    Nothing,
    /// The number of the call.
    Number,
    /// The token of its machine.
    Token,
}

/// What an instruction does on all records of a region.
#[derive(Clone, Copy, Debug, PartialEq, Eq)]
pub(crate) enum Move {
    /// It answers ENOSYS.
    Answers,
    /// The next so many instructions are skipped, and A holds this then.
    Skips(u32, Held),
}

/// The verdict ERRNO with ENOSYS.
pub(crate) const ENOSYS: u32 = 0x0005_0026;

// How a comparison of A comes out for all records that are kept.
fn compare_held(test: Test, held: Held, region: &mut Region, k: u32) -> Option<bool>
    requires { IsSome region.old }
    ensures part { IsPartOf region.new region.old }
    ensures same { IfSome result (λ out. (r : List ℕ) → IsIn region.new r → holds test (a_of held r) k ≡ out) }
{
    match held {
        Held::Nothing => None,
        Held::Number => compare(test, &mut region.numbers, k),
        Held::Token => compare(test, &mut region.tokens, k),
    }
}

/// What an instruction does on all records that are kept of a region. None is told of an instruction that no stub has.
pub(crate) fn advance(insn: &Insn, held: Held, region: &mut Region) -> Option<Move>
    requires { IsSome region.old }
    ensures part { IsPartOf region.new region.old }
    ensures does { IfSome result (λ does. (r : List ℕ) → IsIn region.new r
        → step r insn.now (holding (a_of held r)) ≡ step_of does r) }
{
    let Insn { jt, jf, k, .. } = *insn;
    match insn.operation() {
        Some(Operation::LoadWord) => match k {
            0 => Some(Move::Skips(0, Held::Number)),
            4 => Some(Move::Skips(0, Held::Token)),
            _ => None,
        },
        Some(Operation::Jump) => Some(Move::Skips(k, held)),
        Some(Operation::ReturnK) => {
            if k == ENOSYS {
                Some(Move::Answers)
            } else {
                None
            }
        }
        Some(Operation::Branch(test, Operand::K)) => {
            let out = compare_held(test, held, region, k)?;
            let skip = if out { jt } else { jf };
            Some(Move::Skips(u32::from(skip), held))
        }
        _ => None,
    }
}
