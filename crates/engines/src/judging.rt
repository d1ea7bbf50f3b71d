//! Bundles in which overlaps are settled.
ghost use Rattle.std.specs.Prelude.{◌≡◌, IfOk, false, true, string_bytes};
ghost use Rattle.engines.specs.Adapted.{IsSettled};
ghost use Rattle.wording.specs.Told.{was_done};

use crate::heads::have_same_head;
use crate::settling::{Choice, is_settled};
use machines::Arch;
use profile_json::{ProfileError, read_bundle, rules_by_entry};
use std::alloc::{AllocError, Global};
use wording::{End, Told};

/// What tells that there is no bundle, and nothing more on standard output.
pub(crate) fn nothing(alloc: Global) -> Told
    ensures { was_done result.end ≡ false }
{
    Told {
        bytes: Vec::new(alloc),
        end: End::No,
    }
}

// The bundle, if its profile settles the rules, and it says the same beside its entries.
fn told_if(is_settled: bool, has_same_head: bool, alloc: Global, bundle: String) -> Told
    ensures settled { was_done result.end ≡ true → is_settled ≡ true }
    ensures same_head { was_done result.end ≡ true → has_same_head ≡ true }
    ensures written { was_done result.end ≡ true → result.bytes.items ≡ string_bytes bundle }
{
    if !is_settled {
        return nothing(alloc);
    }
    if !has_same_head {
        return nothing(alloc);
    }
    Told {
        bytes: bundle.into_bytes(),
        end: End::Done,
    }
}

/// The bundle that was made of a draft, whose entries may say unlike things of one record. It is returned if its profile says of each
/// record what the one entry says that counts. The profile must also have the draft's default verdict and machines. Each rule of the draft
/// gives way to the one whose place is told for it.
pub fn settled(
    alloc: Global,
    native: Arch,
    choice: Choice,
    draft: &[u8],
    winners: &[usize],
    bundle: String,
) -> Result<Told, ProfileError>
    ensures { IfOk result (IsSettled native choice draft.now) }
{
    let all = rules_by_entry(alloc, draft, native)?;
    let read = read_bundle(alloc, bundle.as_bytes(), native)?;
    let is_settled = is_settled(alloc, choice, &all.rules, winners, &read.profile)?;
    let has_same_head = have_same_head(alloc, draft, bundle.as_bytes())?;
    Ok(told_if(is_settled, has_same_head, alloc, bundle))
}
