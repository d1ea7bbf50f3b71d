//! The numbers that a stub answers, of one token.
ghost use Rattle.std.specs.Prelude.{◌≡◌, ◌<◌, ◌≤◌, ◌⊎◌, ◌↔◌, ℕ, List, IfOk, IfSome, true, false, length, drop};
ghost use Rattle.bpf_insn.specs.Machine.{verdict_of};
ghost use Rattle.call_record.specs.Words.{IsRecord, word};
ghost use Rattle.machines.specs.Numbers.{IsWithin};
ghost use Rattle.kernel_check.specs.Lent.{accepted_insns};
ghost use Rattle.compare.specs.inner.Parts.{IsAmong, SplitsBy};
ghost use Rattle.compare.specs.inner.Path.{BeginsWithLoad, IsPart};

use crate::behind_runc::stub::path::follow;
use crate::behind_runc::stub::region::Region;
use kernel_check::Accepted;
use machines::Numbers;
use std::alloc::{AllocError, Global};

// Numbers and those right behind them.
fn joined(before: Numbers, more: Numbers) -> Option<Numbers>
    requires { more.first ≤ more.last }
    ensures { IfSome result (λ both. (n : ℕ) → IsWithin n both ↔ (IsWithin n before ⊎ IsWithin n more)) }
{
    if before.first > before.last || more.first == 0 {
        return None;
    }
    if before.last != more.first - 1 {
        return None;
    }
    Some(Numbers {
        first: before.first,
        last: more.last,
    })
}

// Adds numbers. Those that follow on the last ones are joined to them.
fn add(numbers: &mut Vec<Numbers>, more: Numbers) -> Result<(), AllocError>
    requires { more.first ≤ more.last }
    ensures { IfOk result (λ _. (n : ℕ) → IsAmong n numbers.new.items ↔ (IsAmong n numbers.old.items ⊎ IsWithin n more)) }
{
    match numbers.pop() {
        None => {
            numbers.push(more)?;
            Ok(())
        }
        Some(before) => match joined(before, more) {
            Some(both) => {
                numbers.push(both)?;
                Ok(())
            }
            None => {
                numbers.push(before)?;
                numbers.push(more)?;
                Ok(())
            }
        },
    }
}

// Adds numbers if they are answered.
fn add_if(answered: bool, numbers: &mut Vec<Numbers>, more: Numbers) -> Result<(), AllocError>
    requires { more.first ≤ more.last }
    ensures yes { IfOk result (λ _. answered ≡ true → (n : ℕ) → IsAmong n numbers.new.items ↔ (IsAmong n numbers.old.items ⊎ IsWithin n more)) }
    ensures no { IfOk result (λ _. answered ≡ false → numbers.new.items ≡ numbers.old.items) }
{
    if answered {
        return add(numbers, more);
    }
    Ok(())
}

/// The numbers whose calls a program answers ENOSYS, where the token is one of those that are kept. All other numbers are left to the
/// rest, which stands from this position on. None is told where a path has an instruction that no stub has.
pub(crate) fn answered_numbers(
    alloc: Global,
    filter: &Accepted<'_>,
    begin: usize,
    tokens: &mut Numbers,
) -> Result<Option<Vec<Numbers>>, AllocError>
    requires within { begin < length (accepted_insns filter.now) }
    requires loads { BeginsWithLoad (drop begin (accepted_insns filter.now)) }
    requires some { tokens.old.first ≤ tokens.old.last }
    ensures part { IsPart tokens.new tokens.old }
    ensures split { IfOk result (λ found. IfSome found (λ numbers. (r : List ℕ) → IsRecord r → IsWithin (word r 1) tokens.new
        → SplitsBy (accepted_insns filter.now) (drop begin (accepted_insns filter.now)) numbers.items r)) }
{
    let mut numbers = Vec::new(alloc);
    let mut next: u32 = 0;
    'all: loop {
        let mut region = Region {
            numbers: Numbers {
                first: next,
                last: u32::MAX,
            },
            tokens: *tokens,
        };
        let answered = match follow(filter, begin, &mut region) {
            None => return Ok(None),
            Some(answered) => answered,
        };
        *tokens = region.tokens;
        add_if(answered, &mut numbers, region.numbers)?;
        if region.numbers.last == u32::MAX {
            return Ok(Some(numbers));
        }
        next = region.numbers.last + 1;
    }
}
