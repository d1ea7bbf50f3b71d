//! The names that a bundle allows.
use crate::calls::{Calls, Seen};
use crate::keeps::{Keep, is_kept, is_known};
use crate::lists::{FALLBACKS, NEEDED, Otherwise, Runtime, THREADS, is_in, of_first, of_runtime};
use call_tables::call_name;
use machines::Arch;
use std::alloc::{AllocError, Global};

/// The names that a bundle allows whatever the arguments, in order. Also those that are added, each list for its reason, and
/// the names that fail with ENOSYS.
#[derive(Drop)]
pub(crate) struct Names {
    pub(crate) allowed: Vec<&'static str>,
    pub(crate) needed: Vec<&'static str>,
    pub(crate) threads: Vec<&'static str>,
    pub(crate) of_runtime: Vec<&'static str>,
    pub(crate) of_first: Vec<&'static str>,
    pub(crate) missing: Vec<&'static str>,
}

impl Names {
    fn none(alloc: Global) -> Names {
        Names {
            allowed: Vec::new(alloc),
            needed: Vec::new(alloc),
            threads: Vec::new(alloc),
            of_runtime: Vec::new(alloc),
            of_first: Vec::new(alloc),
            missing: Vec::new(alloc),
        }
    }
}

// Adds a name, unless it is there.
fn put(names: &mut Vec<&'static str>, name: &'static str) -> Result<(), AllocError> {
    if !is_in(names, name) {
        names.push(name)?;
    }
    Ok(())
}

// Adds the names of the calls that logs show and that are allowed whatever their arguments.
fn put_shown(names: &mut Vec<&'static str>, seen: &[Seen]) -> Result<(), AllocError> {
    for call in seen {
        if call.is_whole() {
            if let Some(name) = call_name(call.arch, call.nr) {
                put(names, name)?;
            }
        }
    }
    Ok(())
}

// Whether a name is none of these, the machines have it, and no values of its calls are kept.
fn is_lacking(machines: &[Arch], keeps: &[Keep<'_>], names: &[&'static str], name: &str) -> bool {
    is_known(machines, name) && !is_in(names, name) && !is_kept(keeps, name)
}

// Adds those names of a list that are lacking, to the ones that are added for its reason too.
fn add(
    machines: &[Arch],
    keeps: &[Keep<'_>],
    names: &mut Vec<&'static str>,
    list: &[&'static str],
    added: &mut Vec<&'static str>,
) -> Result<(), AllocError> {
    for name in list {
        if is_lacking(machines, keeps, names, name) {
            names.push(*name)?;
            added.push(*name)?;
        }
    }
    Ok(())
}

// Whether values of a call that makes threads are kept.
fn are_threads_kept(keeps: &[Keep<'_>]) -> bool {
    for name in THREADS {
        if is_kept(keeps, name) {
            return true;
        }
    }
    false
}

// Whether a call that makes threads is one of these.
fn are_threads_in(names: &[&'static str]) -> bool {
    for name in THREADS {
        if is_in(names, name) {
            return true;
        }
    }
    false
}

// The list of the calls that make threads, if one of them is allowed and of none values are kept.
fn threads_beside(keeps: &[Keep<'_>], names: &[&'static str]) -> &'static [&'static str] {
    if !are_threads_kept(keeps) && are_threads_in(names) {
        return THREADS;
    }
    &[]
}

// The calls that fail with ENOSYS, where the others fail with EPERM or end the process.
fn missing_beside(otherwise: Otherwise) -> &'static [&'static str] {
    match otherwise {
        Otherwise::Errno | Otherwise::Kill => FALLBACKS,
        Otherwise::Enosys | Otherwise::Log => &[],
    }
}

// Adds those names of a list that are lacking to the ones that fail with ENOSYS.
fn put_missing(
    machines: &[Arch],
    keeps: &[Keep<'_>],
    names: &[&'static str],
    list: &[&'static str],
    missing: &mut Vec<&'static str>,
) -> Result<(), AllocError> {
    for name in list {
        if is_lacking(machines, keeps, names, name) {
            missing.push(*name)?;
        }
    }
    Ok(())
}

// Adds what a runtime calls itself, and the process 1 that an engine may put before the program.
fn put_of_runtime(
    names: &mut Names,
    machines: &[Arch],
    keeps: &[Keep<'_>],
    runtime: Option<Runtime>,
) -> Result<(), AllocError> {
    let allowed = &mut names.allowed;
    add(
        machines,
        keeps,
        allowed,
        of_runtime(runtime),
        &mut names.of_runtime,
    )?;
    add(
        machines,
        keeps,
        allowed,
        of_first(runtime),
        &mut names.of_first,
    )
}

// Adds the calls that make threads, where one of them is there, and those that programs need.
fn put_needed(names: &mut Names, machines: &[Arch], keeps: &[Keep<'_>]) -> Result<(), AllocError> {
    let allowed = &mut names.allowed;
    let list = threads_beside(keeps, allowed);
    add(machines, keeps, allowed, list, &mut names.threads)?;
    add(machines, keeps, allowed, NEEDED, &mut names.needed)
}

// Adds the names of a bundle, each list for its reason.
fn put_names(
    names: &mut Names,
    machines: &[Arch],
    keeps: &[Keep<'_>],
    calls: &Calls,
    runtime: Option<Runtime>,
    otherwise: Otherwise,
) -> Result<(), AllocError> {
    put_shown(&mut names.allowed, &calls.seen)?;
    put_of_runtime(names, machines, keeps, runtime)?;
    put_needed(names, machines, keeps)?;
    let list = missing_beside(otherwise);
    put_missing(machines, keeps, &names.allowed, list, &mut names.missing)?;
    names.allowed.sort()?;
    Ok(())
}

/// The names of a bundle that allows the calls that logs show.
pub(crate) fn names_of(
    alloc: Global,
    machines: &[Arch],
    keeps: &[Keep<'_>],
    calls: &Calls,
    runtime: Option<Runtime>,
    otherwise: Otherwise,
) -> Result<Names, AllocError> {
    let mut names = Names::none(alloc);
    put_names(&mut names, machines, keeps, calls, runtime, otherwise)?;
    Ok(names)
}
