//! One path through a stub.
ghost use Rattle.std.specs.Prelude.{◌≡◌, ◌<◌, ◌≤◌, ℕ, List, IfSome, length, drop};
ghost use Rattle.bpf_insn.specs.Machine.{verdict_of};
ghost use Rattle.kernel_check.specs.Lent.{accepted_insns};
ghost use Rattle.compare.specs.inner.Path.{BeginsWithLoad, IsIn, IsPartOf, IsSome, answer_of};

use crate::behind_runc::stub::region::Region;
use crate::behind_runc::stub::step::{Held, Move, advance};
use kernel_check::Accepted;

/// Whether a program answers ENOSYS on all records that are kept of a region, or what its rest answers. The rest stands from this
/// position on. None is told where the path has an instruction that no stub has.
pub(crate) fn follow(filter: &Accepted<'_>, begin: usize, region: &mut Region) -> Option<bool>
    requires within { begin < length (accepted_insns filter.now) }
    requires loads { BeginsWithLoad (drop begin (accepted_insns filter.now)) }
    requires some { IsSome region.old }
    ensures part { IsPartOf region.new region.old }
    ensures answer { IfSome result (λ answered. (r : List ℕ) → IsIn region.new r
        → verdict_of (accepted_insns filter.now) r ≡ answer_of answered (drop begin (accepted_insns filter.now)) r) }
{
    let program = filter.program();
    let mut held = Held::Nothing;
    let mut pc = 0;
    while pc < begin {
        match advance(&program.get(pc), held, region)? {
            Move::Answers => return Some(true),
            Move::Skips(skip, then) => {
                held = then;
                pc += 1 + skip as usize;
            }
        }
    }
    if pc == begin { Some(false) } else { None }
}
