//! The arguments of the command line.
use cli::Stop;
use std::alloc::Global;
use std::env::FillError;
use std::rt::Env;
use std::{env, io};

// The environment of the process, with no text as the program's name. So a name that is not UTF-8 does not matter: only
// the arguments after it are judged.
#[derive(Drop)]
struct Nameless<'a>(&'a HostRuntime);

impl Env for Nameless<'_> {
    fn arg(&self, i: usize, buf: &mut [u8]) -> Result<usize, FillError> {
        if i == 0 { Ok(0) } else { self.0.arg(i, buf) }
    }

    fn var(&self, name: &str, buf: &mut [u8]) -> Result<usize, FillError> {
        self.0.var(name, buf)
    }

    fn var_at(&self, i: usize, buf: &mut [u8]) -> Result<usize, FillError> {
        self.0.var_at(i, buf)
    }
}

// An argument that is not UTF-8 is a fault of the command line.
fn stop_of(error: io::Error) -> Stop<'static> {
    match error.kind() {
        io::ErrorKind::OutOfMemory => Stop::OutOfMemory,
        _ => Stop::Usage,
    }
}

/// The arguments after the program's name.
pub fn arguments_of(rt: &HostRuntime, alloc: Global) -> Result<Vec<String>, Stop<'static>> {
    let mut arguments = Vec::new(alloc);
    for argument in env::args(&(Nameless(rt), alloc)).map_err(stop_of)?.skip(1) {
        arguments.push(argument).map_err(|_| Stop::OutOfMemory)?;
    }
    Ok(arguments)
}
