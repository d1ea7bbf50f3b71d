//! Which entry says what is said of a call.
ghost use Rattle.std.specs.Prelude.{◌≡◌, position};
ghost use Rattle.call_record.specs.Record.{words};
ghost use Rattle.profile.specs.Said.{matches};
ghost use Rattle.compare.specs.LintTold as spec;

use call_record::Record;
use machines::Arch;
use profile::Rule;
use profile_json::EntryRules;
use wording::is_match;

// The first rule that matches a call.
fn first_match(rules: &[Rule], call: &Record) -> Option<usize>
    ensures { result ≡ position (λ rule. matches rule (words call.now)) rules.now }
{
    rules.iter().position(|rule| is_match(rule, call))
}

// The entry of the first rule that matches a call.
fn entry_of(all: &EntryRules, call: &Record) -> Option<usize>
    ensures { result ≡ spec.entry_of all.now.rules.items all.now.ends.items call.now }
{
    match first_match(&all.rules, call) {
        Some(place) => all.entry_of(place),
        None => None,
    }
}

/// The entry that answers a call, or else the one that answers the same with the bits at 0 that are not read.
pub(crate) fn place_of(all: &EntryRules, call: &Record, cleared: &Record) -> Option<usize>
    ensures { result ≡ spec.place_of all.now.rules.items all.now.ends.items call.now cleared.now }
{
    match entry_of(all, call) {
        Some(entry) => Some(entry),
        None => entry_of(all, cleared),
    }
}

/// The first entry with a rule for a machine's call, if the machine has the call.
pub(crate) fn entry_at(all: &EntryRules, arch: Arch, nr: Option<u32>) -> Option<usize> {
    let nr = nr?;
    let place = all
        .rules
        .iter()
        .position(|rule| rule.arch == arch && rule.nr == nr)?;
    all.entry_of(place)
}
