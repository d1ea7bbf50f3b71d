//! Why a profile says its verdict.
ghost use Rattle.std.specs.Prelude.{◌≡◌, position};
ghost use Rattle.call_record.specs.Record.{words};
ghost use Rattle.profile.specs.Said as said;
ghost use Rattle.wording.specs.Reason.{entry_at, reason_of};

use call_record::Record;
use profile::{Profile, Rule, are_for};
use profile_json::EntryRules;

/// Why a profile says its verdict of a record.
#[derive(Clone, Copy, Debug, PartialEq, Eq)]
pub enum Reason {
    /// The record is no call of the profile's machines.
    Foreign,
    /// The first rule that matches the record is of the entry at this place, from 0.
    Entry(usize),
    /// No rule matches it.
    Default,
}

// Whether a record is a call of the profile's machines.
fn is_native(profile: &Profile, call: &Record) -> bool
    ensures { result ≡ said.is_native profile.now (words call.now) }
{
    are_for(profile.machines(), call.arch, call.nr)
}

/// Whether a record matches a rule.
pub fn is_match(rule: &Rule, call: &Record) -> bool
    ensures { result ≡ said.matches rule.now (words call.now) }
{
    rule.matches(call)
}

/// The place of the entry that has the rule at a place.
pub fn entry_at(all: &EntryRules, place: usize) -> usize
    ensures { result ≡ entry_at all.now.ends.items place }
{
    match all.entry_of(place) {
        Some(entry) => entry,
        None => 0,
    }
}

// The first rule that matches.
fn first_match(rules: &[Rule], call: &Record) -> Option<usize>
    ensures { result ≡ position (λ rule. said.matches rule (words call.now)) rules.now }
{
    rules.iter().position(|rule| is_match(rule, call))
}

/// Why a profile says its verdict of a record, by the rules of its bundle's entries.
pub fn reason_of(profile: &Profile, all: &EntryRules, call: &Record) -> Reason
    ensures { result ≡ reason_of profile.now all.now.rules.items all.now.ends.items (words call.now) }
{
    if !is_native(profile, call) {
        return Reason::Foreign;
    }
    match first_match(&all.rules, call) {
        Some(place) => Reason::Entry(entry_at(all, place)),
        None => Reason::Default,
    }
}
