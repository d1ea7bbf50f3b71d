//! What `ccell recover` does.
ghost use Rattle.std.specs.Prelude.{◌≡◌, [], ◌∷◌, Bool, ℕ, IfOk, List, codes, false, map, string_bytes};
ghost use Rattle.aside.specs.declared.leave.Leave.{Leave as TheLeave};
ghost use Rattle.machines.specs.declared.arch.Arch.{Arch as TheArch};
ghost use Rattle.recover.specs.Recovered.{IsRecovered};
ghost use Rattle.aside.specs.RecoveredBut.{IsToldBut};
ghost use Rattle.byte_order.specs.Turned.{read_as};
ghost use Rattle.recover_others.specs.RecoveredOthers.{IsRecoveredOthers};
ghost use Rattle.cli.specs.Recovered as spec;
ghost use Rattle.cli.specs.Told.{of_one};
ghost use Rattle.cli.specs.Written.{WritesMade};
ghost use Rattle.wording.specs.Told.{was_done};
ghost use Rattle.cli.specs.inner.Telling.{IsToldOf, told_in};

use crate::adapting::OutputAndReport;
use crate::files::{Files, read_filter};
use crate::forms::in_form;
use crate::stops::Stop;
use aside::{Leave, RecoveredBut, recover_told};
use machines::Arch;
use recover::{Unrecovered, Unsaid, line_of, recover};
use recover_others::{Unallowed, recover_others};
use std::alloc::{AllocError, Global};
use wording::{End, Told};

// Whether one of the words is this.
fn has_word(word: &str, words: &[&str]) -> bool
    ensures { result ≡ spec.has_word word.now (map (λ w. w.now) words.now) }
{
    match words {
        [other, others @ ..] => *other == word || has_word(word, others),
        [] => false,
    }
}

// The calls that the words leave aside.
fn leave_in(words: &[&str]) -> Leave
    ensures { result ≡ spec.leave_in (map (λ w. w.now) words.now) }
{
    Leave {
        unnamed: has_word("calls", words),
        x32: has_word("without-x32", words),
    }
}

// Whether the words leave some calls out.
fn leaves_out(words: &[&str]) -> bool
    ensures { result ≡ spec.leaves_out (map (λ w. w.now) words.now) }
{
    has_word("runc", words) || has_word("calls", words) || has_word("without-x32", words)
}

// A bundle that was found.
fn found(alloc: Global, bundle: String) -> OutputAndReport
    ensures { (native : TheArch) (filter : List ℕ) → IsRecovered native (string_bytes bundle) filter → spec.TellsRecovered native filter result.told }
{
    let told = Told {
        bytes: bundle.into_bytes(),
        end: End::Done,
    };
    OutputAndReport {
        told,
        changes: String::new(alloc),
    }
}

// A bundle that was found but for calls.
fn found_but(made: RecoveredBut) -> OutputAndReport
    ensures { (native : TheArch) (filter : List ℕ) (runc : Bool) (leave : TheLeave)
        → IsToldBut native filter runc leave (string_bytes made.bundle) (string_bytes made.lines)
        → spec.TellsRecoveredBut native runc leave filter result.told }
{
    let told = Told {
        bytes: made.bundle.into_bytes(),
        end: End::Done,
    };
    OutputAndReport {
        told,
        changes: made.lines,
    }
}

// Behind a bundle that tells it.
const OTHERS: &str =
    "ccell: x-ccell-otherMachines: calls of other machines are allowed, as this filter has it; no engine reads this member\n";

// A bundle that was found where other calls are allowed.
fn found_others(alloc: Global, bundle: String) -> Result<OutputAndReport, AllocError>
    ensures { (native : TheArch) (filter : List ℕ) → IsRecoveredOthers native (string_bytes bundle) filter
        → IfOk result (λ both. spec.TellsRecoveredOthers native filter both.told) }
{
    let changes = String::from_str(alloc, OTHERS)?;
    let told = Told {
        bytes: bundle.into_bytes(),
        end: End::Done,
    };
    Ok(OutputAndReport { told, changes })
}

// That none was found, and why.
fn none(alloc: Global, changes: String) -> OutputAndReport
    ensures done { was_done result.told.end ≡ false }
    ensures empty { result.told.bytes.items ≡ [] }
{
    let told = Told {
        bytes: Vec::new(alloc),
        end: End::No,
    };
    OutputAndReport { told, changes }
}

// Why none was found.
fn untold(alloc: Global, native: Arch, unsaid: &Unsaid) -> Result<OutputAndReport, AllocError>
    ensures done { IfOk result (λ both. was_done both.told.end ≡ false) }
    ensures empty { IfOk result (λ both. both.told.bytes.items ≡ []) }
{
    let changes = line_of(alloc, native, unsaid)?;
    Ok(none(alloc, changes))
}

// Behind the line that tells why, before a bundle that was judged without a yes.
const DRAFT: &str = "ccell: this was written for it, and is not handed out as its profile:\n";

// Why none was found, and what was drafted.
fn undone(alloc: Global, native: Arch, why: &Unrecovered) -> Result<OutputAndReport, AllocError>
    ensures done { IfOk result (λ both. was_done both.told.end ≡ false) }
    ensures empty { IfOk result (λ both. both.told.bytes.items ≡ []) }
{
    let mut changes = line_of(alloc, native, &why.unsaid)?;
    if let Some(draft) = &why.draft {
        changes.push_str(DRAFT)?;
        changes.push_str(draft)?;
    }
    Ok(none(alloc, changes))
}

// The bundle that means what a filter does, or why none was found.
fn bundle_of(alloc: Global, native: Arch, filter: &[u8]) -> Result<OutputAndReport, AllocError>
    ensures { IfOk result (λ both. spec.TellsRecovered native filter.now both.told) }
{
    match recover(alloc, native, filter) {
        Ok(bundle) => Ok(found(alloc, bundle)),
        Err(why) => undone(alloc, native, &why),
    }
}

// The bundle of which a filter is right but for calls, or why none was found.
fn bundle_but(
    alloc: Global,
    native: Arch,
    runc: bool,
    leave: Leave,
    filter: &[u8],
) -> Result<OutputAndReport, AllocError>
    ensures { IfOk result (λ both. spec.TellsRecoveredBut native runc leave filter.now both.told) }
{
    match recover_told(alloc, native, filter, runc, leave) {
        Ok(made) => Ok(found_but(made)),
        Err(unsaid) => untold(alloc, native, &unsaid),
    }
}

// Why none was found where other calls are allowed.
fn unallowed(alloc: Global, native: Arch, why: &Unallowed) -> Result<OutputAndReport, AllocError>
    ensures done { IfOk result (λ both. was_done both.told.end ≡ false) }
    ensures empty { IfOk result (λ both. both.told.bytes.items ≡ []) }
{
    let changes = recover_others::line_of(alloc, native, why)?;
    Ok(none(alloc, changes))
}

// The bundle of a filter that allows other calls, or why none was found.
fn bundle_others(alloc: Global, native: Arch, filter: &[u8]) -> Result<OutputAndReport, AllocError>
    ensures { IfOk result (λ both. spec.TellsRecoveredOthers native filter.now both.told) }
{
    match recover_others(alloc, native, filter) {
        Ok(bundle) => found_others(alloc, bundle),
        Err(why) => unallowed(alloc, native, &why),
    }
}

const ALONE: &str =
    "no section was found: others leaves no calls out, and stands beside none of runc, calls and without-x32\n";

// What tells that no words that leave calls out stand beside `others`.
fn refused(alloc: Global) -> Result<OutputAndReport, AllocError>
    ensures done { IfOk result (λ both. was_done both.told.end ≡ false) }
    ensures empty { IfOk result (λ both. both.told.bytes.items ≡ []) }
{
    let changes = String::from_str(alloc, ALONE)?;
    Ok(none(alloc, changes))
}

// The bundle of a filter that allows other calls, unless words stand beside that leave calls out.
fn bundle_others_if(
    alloc: Global,
    native: Arch,
    words: &[&str],
    filter: &[u8],
) -> Result<OutputAndReport, AllocError>
    ensures { IfOk result (λ both. spec.TellsRecoveredOthers native filter.now both.told) }
{
    if leaves_out(words) {
        return refused(alloc);
    }
    bundle_others(alloc, native, filter)
}

// The bundle for which the words ask that leave calls out or none, or why none was found.
fn bundle_left(
    alloc: Global,
    native: Arch,
    words: &[&str],
    filter: &[u8],
) -> Result<OutputAndReport, AllocError>
    ensures { IfOk result (λ both. spec.TellsBy (spec.leaves_out (map (λ w. w.now) words.now)) native (map (λ w. w.now) words.now) filter.now
        both.told) }
{
    if leaves_out(words) {
        return bundle_but(
            alloc,
            native,
            has_word("runc", words),
            leave_in(words),
            filter,
        );
    }
    bundle_of(alloc, native, filter)
}

// The bundle for which the words ask, or why none was found.
fn bundle_by(
    alloc: Global,
    native: Arch,
    words: &[&str],
    filter: &[u8],
) -> Result<OutputAndReport, AllocError>
    ensures { IfOk result (λ both. spec.TellsAsked native (map (λ w. w.now) words.now) filter.now both.told) }
{
    if has_word("others", words) {
        return bundle_others_if(alloc, native, words, filter);
    }
    bundle_left(alloc, native, words, filter)
}

// The bundle for which the words ask, of a filter by its name, or why none was found.
fn bundle_of_file<'a, F: Files>(
    alloc: Global,
    native: Arch,
    words: &[&str],
    filter: &'a str,
    files: &mut F,
) -> Result<OutputAndReport, Stop<'a>>
    ensures { IsToldOf (F.folder files.old) (filter.entry.now ∷ []) (of_one (λ file. spec.TellsAsked native (map (λ w. w.now) words.now) (read_as native file))) (told_in result) }
{
    match read_filter(alloc, native, files, filter) {
        Ok(bytes) => match bundle_by(alloc, native, words, &bytes) {
            Ok(both) => Ok(both),
            Err(_no_memory) => Err(Stop::OutOfMemory),
        },
        Err(stop) => Err(stop),
    }
}

/// Makes the profile that a filter means, as the words ask: its section, or the bundle; and for all calls, or but for some.
pub(crate) fn recovered<'a, F: Files>(
    alloc: Global,
    native: Arch,
    words: &[&str],
    filter: &'a str,
    files: &mut F,
) -> Result<OutputAndReport, Stop<'a>>
    ensures { IsToldOf (F.folder files.old) (filter.entry.now ∷ [])
        (of_one (λ file. WritesMade native (spec.has_word (codes "bundle") (map (λ w. w.now) words.now))
        (spec.TellsAsked native (map (λ w. w.now) words.now) (read_as native file)))) (told_in result) }
{
    let made = bundle_of_file(alloc, native, words, filter, files);
    in_form(alloc, native, has_word("bundle", words), made)
}
