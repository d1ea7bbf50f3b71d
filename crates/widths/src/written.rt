//! The bundle of narrowed entries.
use crate::entries::{Entries, list_in, put_member};
use crate::text::Text;
use profile_json::{Bundle, Document};
use serde_json::Value;
use std::alloc::{AllocError, Global};

/// A bundle, what was changed, a line each, and whether it cannot be written.
#[derive(Drop)]
pub(crate) struct Draft {
    pub(crate) text: String,
    pub(crate) changes: String,
    pub(crate) is_refused: bool,
}

// Begins the bundle above its entries.
fn put_head(text: &mut Text, config: &Value, section: &Value) {
    text.begin("{\n  ");
    put_member(text, config, "ociVersion");
    text.put(",\n  \"linux\": {\n    \"seccomp\": ");
    text.begin("{\n      ");
    put_member(text, section, "defaultAction");
    put_member(text, section, "defaultErrnoRet");
    put_member(text, section, "architectures");
    put_member(text, section, "flags");
    put_member(text, section, "listenerPath");
    put_member(text, section, "listenerMetadata");
    text.separate(",\n      ");
    text.begin("\"syscalls\": [");
}

// The section of a bundle.
fn section_of(config: &Value) -> Option<&Value> {
    config.get("linux")?.get("seccomp")
}

// Writes the bundle of a section.
fn put_section(
    entries: &mut Entries<'_>,
    bundle: &Bundle,
    config: &Value,
    section: &Value,
) -> Result<(), AllocError> {
    put_head(&mut entries.text, config, section);
    entries.put_all(list_in(section, "syscalls"), &bundle.by_entry)?;
    entries.text.end("\n      ]\n    }\n  }\n}\n");
    Ok(())
}

// Writes the bundle of one that was read.
fn put_bundle(
    entries: &mut Entries<'_>,
    document: &Document,
    bundle: &Bundle,
) -> Result<(), AllocError> {
    let Ok(config) = document.tree() else {
        return Ok(());
    };
    match section_of(config) {
        Some(section) => put_section(entries, bundle, config, section),
        None => Ok(()),
    }
}

/// The bundle of narrowed entries of one that was read.
pub(crate) fn written(
    alloc: Global,
    document: &Document,
    bundle: &Bundle,
) -> Result<Draft, AllocError> {
    let mut entries = Entries::new(alloc, bundle.profile.machines());
    put_bundle(&mut entries, document, bundle)?;
    let Entries {
        text,
        changes,
        is_refused,
        ..
    } = entries;
    Ok(Draft {
        text: text.whole()?,
        changes: changes.whole()?,
        is_refused,
    })
}
