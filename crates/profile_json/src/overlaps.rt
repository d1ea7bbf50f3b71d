//! Entries that give unlike verdicts to one record.
ghost use Rattle.std.specs.Prelude.{◌≡◌, ◌↔◌, map, nat_lt, position, IsTrue, IsSomeAnd, IfSome, IfNone, Any, Contains};
ghost use Rattle.std.specs.List.{list_any};
ghost use Rattle.std.specs.Str.{bytes_eq};
ghost use Rattle.profile_json.specs.Breaks.{ClashUnder};
ghost use Rattle.profile_json.specs.inner.Clashes.{OverlapOn, NoClash, IsOverlap, HasClash};
ghost use Rattle.profile_json.specs.inner.View.{entry_parts};
ghost use Rattle.profile_json.specs.Fault.{fault_of};
ghost use Rattle.profile_json.specs.Rules.{ends_after};

use crate::entry::Entry;
use crate::fault::ProfileError;
use crate::name::short_name;
use crate::rules::rule_of;
use call_tables::call_number;
use machines::Arch;
use profile::overlap;

fn has_name(names: &[&str], name: &str) -> bool
    ensures { result ≡ list_any (λ n. bytes_eq n.now name.now) names.now }
{
    names.iter().any(|other| *other == name)
}

/// Whether one record of this call matches rules of both entries on a machine.
fn overlap_on(first: &Entry, second: &Entry, name: &str, arch: Arch) -> bool
    ensures { IsTrue result ↔ OverlapOn (entry_parts first.now) (entry_parts second.now) name.now arch }
{
    match call_number(arch, name) {
        Some(nr) => overlap(&rule_of(first, arch, nr), &rule_of(second, arch, nr)),
        None => false,
    }
}

fn overlap_under(first: &Entry, second: &Entry, name: &str, machines: &[Arch]) -> bool
    ensures { IsTrue result ↔ Any (OverlapOn (entry_parts first.now) (entry_parts second.now) name.now) machines.now }
{
    machines
        .iter()
        .any(|arch| overlap_on(first, second, name, *arch))
}

/// Whether the first entry has the name too, and one record matches rules of both under it.
fn overlap_by_name(first: &Entry, second: &Entry, name: &str, machines: &[Arch]) -> bool
    ensures { IsTrue result ↔ Contains (entry_parts first.now).names name.now
        × Any (OverlapOn (entry_parts first.now) (entry_parts second.now) name.now) machines.now }
{
    if !has_name(&first.names, name) {
        return false;
    }
    overlap_under(first, second, name, machines)
}

/// The first name of the second entry under which one record gets unlike verdicts of the two.
fn clash_of<'a>(first: &Entry, second: &Entry<'a>, machines: &[Arch]) -> Option<&'a str>
    ensures found { IfSome result (λ name. ClashUnder machines.now (entry_parts first.now) (entry_parts second.now) name.now) }
    ensures none { IfNone result (NoClash machines.now (entry_parts first.now) (entry_parts second.now)) }
{
    if first.word == second.word {
        return None;
    }
    for name in &second.names {
        if overlap_by_name(first, second, name, machines) {
            return Some(*name);
        }
    }
    None
}

/// The entry that has the rule at a place.
fn entry_at(ends: &[usize], place: usize) -> Option<usize>
    ensures { result ≡ position (λ end. nat_lt place end) ends.now }
{
    ends.iter().position(|end| place < *end)
}

/// The refusal if the rule at a place overlaps an earlier one.
///
/// It names the entry of that rule, the least earlier entry that it overlaps, and the first of its names that is
/// concerned.
pub(crate) fn overlap_of(
    entries: &[Entry],
    machines: &[Arch],
    ends: &[usize],
    place: usize,
) -> ProfileError
    requires ends_are { ends.now ≡ ends_after 0 machines.now (map entry_parts entries.now) }
    requires clash { HasClash machines.now (map entry_parts entries.now) place }
    ensures { IsSomeAnd (fault_of result) (IsOverlap machines.now (map entry_parts entries.now)) }
{
    let Some(second) = entry_at(ends, place) else {
        unreachable!();
    };
    let Some(later) = entries.get(second) else {
        unreachable!();
    };
    for (first, earlier) in entries.iter().enumerate() {
        if let Some(name) = clash_of(earlier, later, machines) {
            return ProfileError::Overlap {
                name: short_name(name),
                first,
                second,
            };
        }
    }
    unreachable!()
}
