//! `ccell` on the arguments, files and streams of its process.
#![tactic(auto)]

mod arguments;
mod disk;

use crate::arguments::arguments_of;
use crate::disk::Disk;
use cli::{Stop, dispatch, report};
use std::alloc::{AllocError, Global};
use std::io::BufReader;
use std::process::ExitCode;
use texts::{FromRead, ToWrite};

fn texts_of(alloc: Global, arguments: &[String]) -> Result<Vec<&str>, AllocError> {
    let mut texts = Vec::new(alloc);
    for argument in arguments {
        texts.push(argument.as_str())?;
    }
    Ok(texts)
}

// Runs the program on these arguments, and gives the exit status.
fn run(rt: &HostRuntime, arguments: &[&str]) -> Result<u8, Stop<'static>> {
    let Ok(input) = BufReader::new(rt.alloc(), rt.stdin()) else {
        return Err(Stop::OutOfMemory);
    };
    Ok(dispatch(
        rt.alloc(),
        arguments,
        &mut Disk::new(rt),
        &mut FromRead::new(input),
        &mut ToWrite::new(rt.stdout()),
        &mut ToWrite::new(rt.stderr()),
    ))
}

fn status_of(rt: &HostRuntime) -> Result<u8, Stop<'static>> {
    let arguments = arguments_of(rt, rt.alloc())?;
    let Ok(texts) = texts_of(rt.alloc(), &arguments) else {
        return Err(Stop::OutOfMemory);
    };
    run(rt, &texts)
}

fn main(rt: HostRuntime) -> ExitCode {
    let status = match status_of(&rt) {
        Ok(status) => status,
        Err(stop) => report(&stop, &mut ToWrite::new(rt.stderr())),
    };
    ExitCode::from(status)
}
