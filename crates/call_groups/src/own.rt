//! The names that stand for a group.
ghost use Rattle.std.specs.Prelude.{◌≡◌, ◌++◌, [], IfOk, map};
ghost use Rattle.call_groups.specs.Groups as spec;

use crate::row::Row;
use crate::tables;
use std::alloc::{AllocError, Global};

/// No names.
pub(crate) fn no_names(alloc: Global) -> Vec<&'static str>
    ensures { result.items ≡ [] }
{
    Vec::new(alloc)
}

/// Adds names.
pub(crate) fn put_names(
    names: &mut Vec<&'static str>,
    more: &[&'static str],
) -> Result<(), AllocError>
    ensures { IfOk result (λ _. map spec.now_of names.new.items ≡ map spec.now_of names.old.items ++ map spec.now_of more.now) }
{
    for name in more {
        names.push(*name)?;
    }
    Ok(())
}

// Adds the names that a row has for a group.
fn put_row(names: &mut Vec<&'static str>, row: &Row, group: &str) -> Result<(), AllocError>
    ensures { IfOk result (λ _. map spec.now_of names.new.items
        ≡ map spec.now_of names.old.items ++ spec.names_of group.now (spec.row row.now)) }
{
    let (named, more) = *row;
    if named == group {
        return put_names(names, more);
    }
    Ok(())
}

// Adds the names that rows have for a group.
fn put_rows(names: &mut Vec<&'static str>, rows: &[Row], group: &str) -> Result<(), AllocError>
    ensures { IfOk result (λ _. map spec.now_of names.new.items
        ≡ map spec.now_of names.old.items ++ spec.names_in (map spec.row rows.now) group.now) }
{
    for row in rows {
        put_row(names, row, group)?;
    }
    Ok(())
}

// Adds those of the first tables.
fn put_until_files(names: &mut Vec<&'static str>, group: &str) -> Result<(), AllocError>
    ensures { IfOk result (λ _. map spec.now_of names.new.items
        ≡ map spec.now_of names.old.items ++ spec.names_until_files group.now) }
{
    put_rows(names, tables::defaults(), group)?;
    put_rows(names, tables::defaults_to_aio(), group)?;
    put_rows(names, tables::basic_io_to_debug(), group)?;
    put_rows(names, tables::files(), group)?;
    put_rows(names, tables::files_later(), group)
}

// Adds those of the next ones.
fn put_until_privileged(names: &mut Vec<&'static str>, group: &str) -> Result<(), AllocError>
    ensures { IfOk result (λ _. map spec.now_of names.new.items
        ≡ map spec.now_of names.old.items ++ spec.names_until_privileged group.now) }
{
    put_rows(names, tables::events(), group)?;
    put_rows(names, tables::ipc_to_module(), group)?;
    put_rows(names, tables::mount_to_network(), group)?;
    put_rows(names, tables::obsolete_to_pkey(), group)?;
    put_rows(names, tables::privileged(), group)
}

// Adds those of the last ones.
fn put_until_timer(names: &mut Vec<&'static str>, group: &str) -> Result<(), AllocError>
    ensures { IfOk result (λ _. map spec.now_of names.new.items
        ≡ map spec.now_of names.old.items ++ spec.names_until_timer group.now) }
{
    put_rows(names, tables::process_to_reboot(), group)?;
    put_rows(names, tables::resources_to_setuid(), group)?;
    put_rows(names, tables::signal_to_sync(), group)?;
    put_rows(names, tables::services(), group)?;
    put_rows(names, tables::services_to_timer(), group)
}

/// Adds the names that stand for a group.
pub(crate) fn put_own(names: &mut Vec<&'static str>, group: &str) -> Result<(), AllocError>
    ensures { IfOk result (λ _. map spec.now_of names.new.items ≡ map spec.now_of names.old.items ++ spec.own_names group.now) }
{
    put_until_files(names, group)?;
    put_until_privileged(names, group)?;
    put_until_timer(names, group)
}

/// The names that stand for a group: none, if there is no such group.
pub(crate) fn own_names(alloc: Global, group: &str) -> Result<Vec<&'static str>, AllocError>
    ensures { IfOk result (λ names. map spec.now_of names.items ≡ spec.own_names group.now) }
{
    let mut names = no_names(alloc);
    put_own(&mut names, group)?;
    Ok(names)
}

// Whether there are names.
fn has_some(names: &[&'static str]) -> bool
    ensures { result ≡ spec.has_some (map spec.now_of names.now) }
{
    match names {
        [] => false,
        [_, ..] => true,
    }
}

/// Whether there is a group of that name.
pub fn is_known(alloc: Global, group: &str) -> Result<bool, AllocError>
    ensures { IfOk result (λ is. is ≡ spec.is_known group.now) }
{
    let names = own_names(alloc, group)?;
    Ok(has_some(&names))
}
