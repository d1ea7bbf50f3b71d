//! What `ccell lint` tells.
ghost use Rattle.std.specs.Prelude.{◌≡◌, ℕ, List, IfOk};
ghost use Rattle.compare.specs.Linted as spec;
ghost use Rattle.compare.specs.Past.{IsFinding};
ghost use Rattle.profile_json.specs.ByEntry.{AreRulesOf};
ghost use Rattle.widths.specs.Narrow.{IsBundle};

use crate::lint::decided::finding;
use crate::lint::past::Finding;
use crate::lint::text::text_of;
use profile_json::{Bundle, Document};
use std::alloc::{AllocError, Global};
use wording::{End, Told, refused_profile};

fn is_nothing(found: &Finding) -> bool
    ensures { result ≡ spec.is_nothing found.now }
{
    match found {
        Finding::Nothing => true,
        Finding::Unlike(_, _) => false,
        Finding::Undecided(_, _, _) => false,
    }
}

// What is told of a profile.
fn judged(alloc: Global, document: &Document, bundle: &Bundle) -> Result<Told, AllocError>
    requires means { IsBundle document.now.native document.now.bytes bundle.now.profile }
    requires rules { AreRulesOf document.now.native document.now.bytes bundle.now.by_entry.rules.items bundle.now.by_entry.ends.items }
    ensures { IfOk result (spec.IsJudged document.now.native document.now.bytes) }
{
    let found = finding(alloc, document.native().family(), &bundle.profile)?;
    let end = End::of(is_nothing(&found));
    let text = text_of(alloc, document, bundle, &found)?;
    Ok(Told {
        bytes: text.into_bytes(),
        end,
    })
}

/// Reports which calls get past a bundle, and which are stopped by it, by bits that the kernel does not read. Also reports what else in it
/// says less than it seems to.
pub fn lint(alloc: Global, document: &Document) -> Result<Told, AllocError>
    ensures { IfOk result (spec.IsLinted document.now.native document.now.bytes) }
{
    match document.bundle() {
        Ok(bundle) => judged(alloc, document, bundle),
        Err(error) => refused_profile(alloc, error),
    }
}
