//! What `ccell learn` makes of a profile and logs together.
ghost use Rattle.std.specs.Prelude.{◌≡◌, ◌∷◌, [], IfOk, List, Option, ℕ, map, option_map, true};
ghost use Rattle.strace_logs.specs.Learned.{IsLearned, TellsLearned};
ghost use Rattle.strace_logs.specs.declared.lists.Otherwise.{Otherwise as TheOtherwise};
ghost use Rattle.strace_logs.specs.declared.lists.Runtime.{Runtime as TheRuntime};
ghost use Rattle.section.specs.Texts.{IsBundleText};
ghost use Rattle.cli.specs.Widened as spec;
ghost use Rattle.cli.specs.Widened.{TellsWidened};
ghost use Rattle.cli.specs.inner.Telling.{IsWidenedFrom, IsWidenedOf, told_in};

use crate::adapting::OutputAndReport;
use crate::combining::combined_of;
use crate::files::{Files, read_bundle};
use crate::logs::learned_of;
use crate::stops::Stop;
use machines::Arch;
use std::alloc::{AllocError, Global};
use strace_logs::{Otherwise, Wish, wish_of};
use together::Way;

/// The profile behind the word `from`, and the words behind it.
pub(crate) fn from_in<'a, 'b>(words: &'a [&'b str]) -> Option<(&'b str, &'a [&'b str])>
    ensures { option_map (λ f. (f.0.now, map (λ w. w.now) f.1.now)) result ≡ spec.from_in (map (λ w. w.now) words.now) }
{
    match words {
        [word, profile, others @ ..] => {
            if *word == "from" {
                return Some((*profile, others));
            }
            None
        }
        _ => None,
    }
}

// Whether a word asks what becomes of other calls.
fn asks_else(words: &[&str]) -> bool
    ensures { result ≡ spec.asks_else (map (λ w. w.now) words.now) }
{
    match words {
        [word, others @ ..] => *word == "else" || asks_else(others),
        [] => false,
    }
}

// What becomes of the calls that no log shows, beside a profile.
fn rest_of(words: &[&str], otherwise: Otherwise) -> Otherwise
    ensures { result ≡ spec.rest_of (map (λ w. w.now) words.now) otherwise }
{
    if asks_else(words) {
        return otherwise;
    }
    Otherwise::Kill
}

// The bundle of a profile and what was learned together.
fn both_of(
    alloc: Global,
    native: Arch,
    bundle: Vec<u8>,
    learned: OutputAndReport,
) -> Result<OutputAndReport, AllocError>
    ensures { (file : List ℕ) (texts : List (List ℕ)) (runtime : Option TheRuntime) (otherwise : TheOtherwise)
        → IsBundleText native file bundle.items → TellsLearned native texts runtime otherwise learned.told
        → IfOk result (λ both. TellsWidened native file texts runtime otherwise both.told) }
{
    let OutputAndReport { told, mut changes } = learned;
    if !told.end.is_done() {
        return Ok(OutputAndReport { told, changes });
    }
    let mut bundles = Vec::new(alloc);
    bundles.push(told.bytes)?;
    bundles.push(bundle)?;
    let both = combined_of(alloc, native, Way::Laxest, &bundles)?;
    changes.push_str(&both.changes)?;
    Ok(OutputAndReport {
        told: both.told,
        changes,
    })
}

// The machines of the profile that a bundle means.
fn machines_in(alloc: Global, native: Arch, bundle: &[u8]) -> Result<Vec<Arch>, AllocError> {
    let mut machines = Vec::new(alloc);
    if let Ok(read) = profile_json::read_bundle(alloc, bundle, native) {
        for arch in read.profile.machines() {
            machines.push(*arch)?;
        }
    }
    Ok(machines)
}

// A bundle of the profile and of the logs that words named, for the machines of both.
fn widened_by<'a, F: Files>(
    alloc: Global,
    native: Arch,
    profile: &'a str,
    wish: Wish<'a>,
    files: &mut F,
) -> Result<OutputAndReport, Stop<'a>>
    ensures { IsWidenedFrom (F.folder files.old) native profile.entry.now (map (λ log. log.now) wish.entry.logs.items) wish.entry.runtime
        wish.entry.otherwise (told_in result) }
{
    let bundle = match read_bundle(alloc, native, files, profile) {
        Ok(bundle) => bundle,
        Err(stop) => return Err(stop),
    };
    let mut wish = wish;
    wish.machines = match machines_in(alloc, native, &bundle) {
        Ok(machines) => machines,
        Err(_no_memory) => return Err(Stop::OutOfMemory),
    };
    match learned_of(alloc, native, &wish, files) {
        Ok(learned) => match both_of(alloc, native, bundle, learned) {
            Ok(both) => Ok(both),
            Err(_no_memory) => Err(Stop::OutOfMemory),
        },
        Err(stop) => Err(stop),
    }
}

/// Makes a bundle that allows what a profile allows and what logs show, as words ask for it.
pub(crate) fn widened<'a, F: Files>(
    alloc: Global,
    native: Arch,
    profile: &'a str,
    words: &[&'a str],
    files: &mut F,
) -> Result<OutputAndReport, Stop<'a>>
    ensures { IsWidenedOf (F.folder files.old) native profile.entry.now (map (λ w. w.now) words.now) (told_in result) }
{
    match wish_of(alloc, native, words) {
        Ok(Some(mut wish)) => {
            wish.otherwise = rest_of(words, wish.otherwise);
            widened_by(alloc, native, profile, wish, files)
        }
        Ok(None) => Err(Stop::Usage),
        Err(_no_memory) => Err(Stop::OutOfMemory),
    }
}
