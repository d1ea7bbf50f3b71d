//! Entries, written in parts where their arguments are cut.
use crate::conditions::put_conditions;
use crate::narrowing::{CutError, Plan, conditions};
use crate::plans::{agree, cuts, lowered, plan_of};
use crate::text::Text;
use machines::Arch;
use profile::{Cond, Rule};
use profile_json::EntryRules;
use serde_json::Value;
use std::alloc::{AllocError, Global};
use wording::ConditionText;

// How many entries a bundle may have.
const MOST_ENTRIES: usize = 1024;

/// The text of the entries, what was changed in them, and whether they can be written.
#[derive(Drop)]
pub(crate) struct Entries<'a> {
    pub(crate) alloc: Global,
    pub(crate) machines: &'a [Arch],
    pub(crate) text: Text,
    pub(crate) changes: Text,
    pub(crate) is_refused: bool,
    /// How many entries stand in the text.
    pub(crate) count: usize,
}

/// Adds a key with its member, if it is there.
pub(crate) fn put_member(text: &mut Text, object: &Value, key: &str) {
    if let Some(member) = object.get(key) {
        text.separate(", ");
        text.put(format_args!("\"{key}\": {member}"));
    }
}

/// The list that a key has, empty where there is none.
pub(crate) fn list_in<'a>(object: &'a Value, key: &str) -> &'a [Value] {
    match object.get(key).and_then(Value::as_array) {
        Some(list) => list.as_slice(),
        None => &[],
    }
}

// Adds the conditions of an entry, each behind a space.
fn tell_conditions(text: &mut Text, conds: &[Cond]) {
    let mut joined_by = "if";
    for cond in conds {
        let condition = ConditionText(cond);
        text.put(format_args!(" {joined_by} {condition}"));
        joined_by = "and";
    }
}

// Adds what is read of values that arguments cannot have.
fn tell_lowered(text: &mut Text, conds: &[Cond], lowers: &[Cond]) {
    let mut joined_by = ", of which";
    let mut is_told = false;
    for place in 0..conds.len().min(lowers.len()) {
        if conds[place] != lowers[place] {
            let condition = ConditionText(&lowers[place]);
            text.put(format_args!("{joined_by} {condition}"));
            joined_by = " and";
            is_told = true;
        }
    }
    if is_told {
        text.put(" is read,");
    }
}

impl<'a> Entries<'a> {
    /// No entries yet.
    pub(crate) fn new(alloc: Global, machines: &'a [Arch]) -> Entries<'a> {
        Entries {
            alloc,
            machines,
            text: Text::new(alloc),
            changes: Text::new(alloc),
            is_refused: false,
            count: 0,
        }
    }

    // Begins an entry.
    fn begin(&mut self) {
        self.text.separate(",");
        self.text.put("\n        ");
        self.count = self.count.saturating_add(1);
    }

    // Adds an entry for one call with these conditions.
    fn put_part(&mut self, entry: &Value, name: &str, conds: &[Cond]) {
        self.begin();
        self.text.put(format_args!("{{\"names\": [\"{name}\"]"));
        put_member(&mut self.text, entry, "action");
        put_member(&mut self.text, entry, "errnoRet");
        self.text.put(", \"args\": ");
        put_conditions(&mut self.text, conds);
        self.text.put("}");
    }

    // Tells why an entry cannot be written.
    fn refuse(&mut self, at: usize, name: &str, why: &str) {
        self.is_refused = true;
        self.changes.put(format_args!("linux.seccomp.syscalls[{at}]: {name}: {why}\n"));
    }

    // Whether there are more entries than a bundle may have.
    fn is_full(&self) -> bool {
        self.count > MOST_ENTRIES
    }

    // Tells what an entry became for one call, and what is read of values that its arguments cannot have.
    fn tell(&mut self, at: usize, name: &str, conds: &[Cond], lowers: &[Cond], count: usize) {
        self.changes
            .put(format_args!("linux.seccomp.syscalls[{at}]: {name}"));
        tell_conditions(&mut self.changes, conds);
        tell_lowered(&mut self.changes, conds, lowers);
        let entries = if count == 1 { "entry" } else { "entries" };
        self.changes
            .put(format_args!(" is written as {count} {entries}\n"));
    }

    // Tells an order with a value that its argument cannot have.
    fn refuse_order(&mut self, at: usize, name: &str, place: usize, conds: &[Cond]) {
        self.is_refused = true;
        self.changes.put(format_args!("linux.seccomp.syscalls[{at}].args[{place}]: {name}"));
        tell_conditions(&mut self.changes, conds);
        self.changes.put(
            ": the argument never has so high a value, and no order is told by its lowest bits: write a value that it can have\n",
        );
    }

    // Adds what an entry says of one call whose arguments are cut and can have all values.
    fn put_lowered(
        &mut self,
        at: usize,
        entry: &Value,
        name: &str,
        conds: &[Cond],
        lowers: &[Cond],
        plan: &Plan,
    ) -> Result<(), AllocError> {
        if !agree(self.machines, name, lowers, plan) {
            self.refuse(
                at,
                name,
                "its machines read unlike numbers of bits of an argument",
            );
            return Ok(());
        }
        // There are six arguments.
        match conditions(self.alloc, &lowers[..lowers.len().min(6)], plan) {
            Ok(lists) => {
                self.tell(at, name, conds, lowers, lists.len());
                for conds in &lists {
                    self.put_part(entry, name, conds.as_slice());
                }
                Ok(())
            }
            Err(CutError::TooMany) => {
                self.refuse(at, name, "is more parts than a bundle may have");
                Ok(())
            }
            Err(CutError::OutOfMemory) => Err(AllocError),
        }
    }

    // Adds what an entry says of one call.
    fn put_call(
        &mut self,
        at: usize,
        entry: &Value,
        name: &str,
        conds: &[Cond],
    ) -> Result<(), AllocError> {
        let plan = plan_of(self.machines, name, conds);
        if !cuts(&plan) {
            self.put_part(entry, name, conds);
            return Ok(());
        }
        match lowered(self.alloc, conds, &plan)? {
            Ok(lowers) => self.put_lowered(at, entry, name, conds, &lowers, &plan),
            Err(place) => {
                self.refuse_order(at, name, place, conds);
                Ok(())
            }
        }
    }

    // Whether an argument of one of the calls is cut.
    fn is_cut(&self, names: &[Value], conds: &[Cond]) -> bool {
        for name in names {
            let name = name.as_str().unwrap_or("");
            let plan = plan_of(self.machines, name, conds);
            if cuts(&plan) {
                return true;
            }
        }
        false
    }

    // Adds an entry, in parts where arguments are cut, until there are too many.
    fn put_entry(&mut self, at: usize, entry: &Value, conds: &[Cond]) -> Result<(), AllocError> {
        let names = list_in(entry, "names");
        if !self.is_cut(names, conds) {
            self.begin();
            self.text.put(format_args!("{entry}"));
            return Ok(());
        }
        for name in names {
            self.put_call(at, entry, name.as_str().unwrap_or(""), conds)?;
            if self.is_full() {
                break;
            }
        }
        Ok(())
    }

    /// Adds the entries, until there are too many.
    pub(crate) fn put_all(&mut self, list: &[Value], all: &EntryRules) -> Result<(), AllocError> {
        let mut start = 0;
        for (at, entry) in list.iter().enumerate() {
            let end = all.ends.get(at).copied().unwrap_or(start);
            let rules = all.rules.get(start..end).unwrap_or(&[]);
            start = end;
            self.put_entry(at, entry, conds_of(rules))?;
            if self.is_full() {
                self.is_refused = true;
                self.changes.put(format_args!(
                    "linux.seccomp.syscalls: more than the {MOST_ENTRIES} entries that a bundle may have\n"
                ));
                break;
            }
        }
        Ok(())
    }
}

// The conditions of an entry, by its rules.
fn conds_of(rules: &[Rule]) -> &[Cond] {
    match rules.first() {
        Some(rule) => rule.conds.as_slice(),
        None => &[],
    }
}
