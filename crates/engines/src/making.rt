//! Bundles made of a section.
ghost use Rattle.std.specs.Prelude.{◌≡◌, IfOk, false, Some, None, string_bytes};
ghost use Rattle.engines.specs.Adapted.{IsMade, IsRead, IsSettled};
ghost use Rattle.wording.specs.Told.{was_done};

use crate::bundle::{Bundle, bundle_of};
use crate::changes::Changes;
use crate::config::Section;
use crate::dropped::{Dropped, dropped_of};
use crate::judging::{nothing, settled};
use crate::overlapping::put_sides;
use crate::settings::Settings;
use crate::settling::{Choice, winners};
use machines::Arch;
use profile_json::{ProfileError, read_bundle, rules_by_entry};
use serde_json::Value;
use show::{Configuration, fault_in};
use std::alloc::{AllocError, Global};
use wording::{End, Told, refused_profile};

/// A configuration, and its section.
#[derive(Clone, Copy)]
pub(crate) struct Source<'a> {
    pub(crate) config: &'a Value,
    pub(crate) section: Section<'a>,
}

// What stands before the section, as the place of a fault has it.
fn top_of(section: Section<'_>) -> &'static str {
    match section.top {
        "linux.seccomp." => "linux.seccomp",
        "spec." => "spec",
        _ => "",
    }
}

// Adds the line of the place of a fault.
fn put_place(
    alloc: Global,
    changes: &mut Changes,
    settings: &Settings<'_>,
    source: Source<'_>,
    error: &ProfileError,
) -> Result<(), AllocError> {
    let place = Configuration {
        root: source.config,
        section: source.section.value,
        top: top_of(source.section),
    };
    let line = fault_in(alloc, settings.family(), place, error)?;
    changes.lines.put(line.as_str());
    Ok(())
}

const SETTLES: &str =
    "ccell: first, looser, stricter or like-libseccomp behind the file says which of the two counts\n";

const NOT_SETTLED: &str =
    "ccell: that word does not settle it: the entry that counts does not match all that the other matches\n";

// Adds the lines of the entries that overlap, and what to write.
fn put_overlap(
    alloc: Global,
    changes: &mut Changes,
    settings: &Settings<'_>,
    (bundle, top): (&Bundle, &'static str),
    name: &str,
    sides: [usize; 2],
) {
    put_sides(changes, alloc, settings.native, bundle, (top, name), sides);
    let what = match settings.wanted.choice {
        Some(_) => NOT_SETTLED,
        None => SETTLES,
    };
    changes.lines.put(what);
}

// Why a bundle is refused, by the places that entries had in the configuration, and the lines of its place.
fn refusal(
    alloc: Global,
    changes: &mut Changes,
    settings: &Settings<'_>,
    source: Source<'_>,
    bundle: &Bundle,
    error: ProfileError,
) -> Result<Told, AllocError>
    ensures { IfOk result (λ told. was_done told.end ≡ false) }
{
    let top = source.section.top;
    match error {
        ProfileError::OutOfMemory => Err(AllocError),
        ProfileError::Overlap {
            name,
            first,
            second,
        } => {
            let told = (bundle, top);
            put_overlap(
                alloc,
                changes,
                settings,
                told,
                name.as_str(),
                [first, second],
            );
            let error = ProfileError::Overlap {
                name,
                first: bundle.part_of(first).entry,
                second: bundle.part_of(second).entry,
            };
            refused_profile(alloc, error)
        }
        _ => {
            put_place(alloc, changes, settings, source, &error)?;
            refused_profile(alloc, error)
        }
    }
}

// What tells these bytes.
fn whole(alloc: Global, bytes: &[u8]) -> Result<Told, AllocError>
    ensures { IfOk result (λ told. told.bytes.items ≡ bytes.now) }
{
    Ok(Told {
        bytes: Vec::from_slice(alloc, bytes)?,
        end: End::Done,
    })
}

// The draft itself, if it is a bundle.
fn draft_if_read(alloc: Global, native: Arch, draft: &[u8]) -> Result<Told, ProfileError>
    ensures { IfOk result (IsRead native draft.now) }
{
    let _read = read_bundle(alloc, draft, native)?;
    let told = whole(alloc, draft)?;
    Ok(told)
}

// The draft itself, or why it is no bundle.
fn read_over(
    alloc: Global,
    changes: &mut Changes,
    settings: &Settings<'_>,
    source: Source<'_>,
    draft: &Bundle,
) -> Result<Told, AllocError>
    ensures { IfOk result (IsRead settings.now.native (string_bytes draft.now.text)) }
{
    match draft_if_read(alloc, settings.native, draft.text.as_bytes()) {
        Ok(told) => Ok(told),
        Err(error) => refusal(alloc, changes, settings, source, draft, error),
    }
}

// For each rule of a draft the place of the one to which it gives way. Also the names that are left out so. These are told.
fn giving_way(
    alloc: Global,
    changes: &mut Changes,
    settings: &Settings<'_>,
    top: &'static str,
    choice: Choice,
    draft: &Bundle,
) -> Result<(Vec<usize>, Dropped), ProfileError> {
    let all = rules_by_entry(alloc, draft.text.as_bytes(), settings.native)?;
    let winners = winners(alloc, choice, &all.rules)?;
    let dropped = dropped_of(alloc, changes, top, draft, &all, &winners)?;
    Ok((winners, dropped))
}

// The bundle without the names that are left out. What else changes was told of the draft.
fn bundle_without(
    alloc: Global,
    settings: &Settings<'_>,
    source: Source<'_>,
    dropped: &Dropped,
) -> Result<Bundle, AllocError> {
    let settings = Settings {
        dropped: Some(dropped),
        ..*settings
    };
    let mut changes = Changes::new(alloc);
    bundle_of(
        alloc,
        &mut changes,
        &settings,
        source.config,
        source.section,
    )
}

// A copy of a bundle's text.
fn text_of(alloc: Global, bundle: &Bundle) -> Result<String, AllocError> {
    String::from_str(alloc, bundle.text.as_str())
}

// The bundle in which the overlaps of a draft are settled, or why there is none.
fn settled_over(
    alloc: Global,
    changes: &mut Changes,
    settings: &Settings<'_>,
    source: Source<'_>,
    choice: Choice,
    draft: &Bundle,
) -> Result<Told, AllocError>
    ensures { IfOk result (IsSettled settings.now.native choice (string_bytes draft.now.text)) }
{
    let top = source.section.top;
    let (winners, dropped) = match giving_way(alloc, changes, settings, top, choice, draft) {
        Ok(found) => found,
        Err(error) => return refusal(alloc, changes, settings, source, draft, error),
    };
    let bundle = bundle_without(alloc, settings, source, &dropped)?;
    let text = text_of(alloc, &bundle)?;
    let draft = draft.text.as_bytes();
    match settled(alloc, settings.native, choice, draft, &winners, text) {
        Ok(told) => Ok(told),
        Err(error) => refusal(alloc, changes, settings, source, &bundle, error),
    }
}

/// The bundle of a draft, unless it cannot be made or may not be.
pub(crate) fn made(
    alloc: Global,
    changes: &mut Changes,
    settings: &Settings<'_>,
    source: Source<'_>,
    draft: &Bundle,
) -> Result<Told, AllocError>
    ensures { IfOk result (IsMade settings.now.native settings.now.wanted.choice (string_bytes draft.now.text)) }
{
    if changes.is_refused {
        return Ok(nothing(alloc));
    }
    if changes.widening > 0 && !settings.wanted.may_widen {
        changes.tell_nothing_written();
        return Ok(nothing(alloc));
    }
    match settings.wanted.choice {
        None => read_over(alloc, changes, settings, source, draft),
        Some(choice) => settled_over(alloc, changes, settings, source, choice, draft),
    }
}
