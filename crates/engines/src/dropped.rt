//! The names of entries that give way to other entries.
use crate::bundle::Bundle;
use crate::changes::Changes;
use crate::keys::is_one_of;
use crate::parts::Part;
use crate::place::put_place;
use call_tables::call_name;
use profile::Rule;
use profile_json::EntryRules;
use std::alloc::{AllocError, Global};
use std::collections::BTreeMap;
use wording::ActionText;

/// The names that give way, by what is written for the entries of the configuration.
#[derive(Drop)]
pub(crate) struct Dropped {
    names: BTreeMap<(usize, usize), Vec<&'static str>>,
}

impl Dropped {
    fn new(alloc: Global) -> Dropped {
        Dropped {
            names: BTreeMap::new(alloc),
        }
    }

    /// Whether a name of a written entry gives way.
    pub(crate) fn contains(&self, part: Part, name: &str) -> bool {
        match self.names.get(&part.key()) {
            Some(names) => is_one_of(names.as_slice(), name),
            None => false,
        }
    }

    // Adds a name of a written entry.
    fn add(&mut self, alloc: Global, part: Part, name: &'static str) -> Result<(), AllocError> {
        if let Some(names) = self.names.get_mut(&part.key()) {
            names.push(name)?;
            return Ok(());
        }
        let mut names = Vec::new(alloc);
        names.push(name)?;
        self.names.insert(part.key(), names)?;
        Ok(())
    }
}

// A rule with what its entry stands for in the configuration.
fn with_part<'a>(bundle: &Bundle, all: &'a EntryRules, place: usize) -> Option<(&'a Rule, Part)> {
    let entry = all.entry_of(place)?;
    let rule = all.rules.get(place)?;
    Some((rule, bundle.part_of(entry)))
}

// Tells that a name of an entry gives way to another entry.
fn tell_giving_way(
    changes: &mut Changes,
    top: &'static str,
    name: &str,
    (rule, part): (&Rule, Part),
    (other, stays): (&Rule, Part),
) {
    let action = ActionText(rule.word);
    let kept = ActionText(other.word);
    let lines = &mut changes.lines;
    put_place(lines, part.place(top));
    lines.put(format_args!(": {name} gets {action}, and gives way to "));
    put_place(lines, stays.place(top));
    lines.put(format_args!(", where it gets {kept}\n"));
}

/// The names whose rules give way to those at other places, which is told.
pub(crate) fn dropped_of(
    alloc: Global,
    changes: &mut Changes,
    top: &'static str,
    bundle: &Bundle,
    all: &EntryRules,
    winners: &[usize],
) -> Result<Dropped, AllocError> {
    let mut dropped = Dropped::new(alloc);
    for (place, winner) in winners.iter().enumerate() {
        if *winner != place {
            drop_name(
                alloc,
                changes,
                &mut dropped,
                (top, bundle),
                all,
                (place, *winner),
            )?;
        }
    }
    Ok(dropped)
}

// Adds the name of a rule that gives way, which is told once.
fn drop_name(
    alloc: Global,
    changes: &mut Changes,
    dropped: &mut Dropped,
    (top, bundle): (&'static str, &Bundle),
    all: &EntryRules,
    (place, winner): (usize, usize),
) -> Result<(), AllocError> {
    let Some(loser) = with_part(bundle, all, place) else {
        return Ok(());
    };
    let Some(other) = with_part(bundle, all, winner) else {
        return Ok(());
    };
    let name = call_name(loser.0.arch, loser.0.nr).unwrap_or("");
    if dropped.contains(loser.1, name) {
        return Ok(());
    }
    tell_giving_way(changes, top, name, loser, other);
    dropped.add(alloc, loser.1, name)
}
