//! The bundle of which a filter is right but for calls that are left aside.
ghost use Rattle.std.specs.Prelude.{◌≡◌, ℕ, IfOk, IfErr, List, string_bytes};
ghost use Rattle.compare.specs.Behind.{IsBehind};
ghost use Rattle.aside.specs.Judged.{stub_calls};
ghost use Rattle.aside.specs.RecoveredBut.{IsCertified, IsRecoveredBut, IsUnsaidBut};
ghost use Rattle.machines.specs.declared.arch.Arch.{Arch as TheArch};

use crate::judged::{JudgedAside, judge_but};
use crate::leave::Leave;
use compare::Behind;
use machines::Arch;
use maker::{Evidence, MakeError};
use profile_json::Document;
use recover::{Passed, Unsaid, draft_of};
use std::alloc::Global;

/// A bundle that was made of a filter, and what was judged of the two, with the calls that were left aside.
#[derive(Drop)]
pub struct RecoveredBundle {
    pub bundle: String,
    pub but: JudgedAside,
}

// Refuses a bundle if it was not judged that the filter is right.
fn be_right(judged: &Result<Evidence, MakeError>) -> Result<(), Unsaid>
    ensures right { IfOk result (λ _. IsCertified judged.now) }
    ensures reason { (native : TheArch) (rest : List ℕ) → IfErr result (IsUnsaidBut native rest) }
{
    match judged {
        Ok(Evidence::Certificate(_)) => Ok(()),
        Ok(Evidence::Refuting(found)) => Err(Unsaid::Unlike(*found)),
        Err(MakeError::OutOfMemory) => Err(Unsaid::OutOfMemory),
        Err(make_error) => Err(Unsaid::Undecided(*make_error)),
    }
}

// What is drafted passes over what may be left aside.
fn passed_of(leave: Leave, behind: &Behind<'_>) -> Passed {
    Passed {
        unnamed: leave.unnamed,
        x32: leave.x32,
        has_stub: !behind.answered.is_empty(),
    }
}

/// The bundle of which a filter behind a stub is right but for calls that are left aside, or what no section says of it.
pub fn recover_but(
    alloc: Global,
    native: Arch,
    filter: &[u8],
    behind: &Behind<'_>,
    leave: Leave,
) -> Result<RecoveredBundle, Unsaid>
    requires { IsBehind filter.now behind.now.rest.now behind.now.answered.items }
    ensures recovered { IfOk result (λ found. IsRecoveredBut native (string_bytes found.bundle) filter.now leave
        (stub_calls found.but.judged.whole behind.now.answered.items) found.but.aside.items) }
    ensures reason { IfErr result (IsUnsaidBut native behind.now.rest.now) }
{
    let bundle = draft_of(alloc, native, behind.rest, passed_of(leave, behind))?;
    let Ok(text) = Vec::from_slice(alloc, bundle.as_bytes()) else {
        return Err(Unsaid::OutOfMemory);
    };
    let document = Document::new(alloc, text, native);
    let Ok(but) = judge_but(alloc, &document, filter, behind, leave) else {
        return Err(Unsaid::OutOfMemory);
    };
    be_right(&but.judged.evidence)?;
    Ok(RecoveredBundle { bundle, but })
}
