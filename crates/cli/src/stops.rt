//! Why the program stops before its line is written, and how that is told.
ghost use Rattle.std.specs.Prelude.{◌≡◌, IfSome};
ghost use Rattle.cli.specs.Stop.{Reports, line_of, name_line, status_of};
ghost use Rattle.cli.specs.declared.stops.Stop.TheVariants.{Read, Write};

use arrayvec::ArrayString;
use command_line::Misuse;
use session::ScriptFault;
use std::alloc::AllocError;
use std::fmt;
use texts::{Line, Sink, WriteFault, put, put_number, write_all};
use thiserror::Error;

/// What stops the program before its line is written. Its text is the line on standard error.
#[derive(Debug, Drop, Error)]
pub enum Stop<'a> {
    /// The arguments are no command.
    Usage,
    /// The file of this name cannot be read.
    CannotRead(&'a str),
    /// Standard input failed at this line, counted from 1.
    Read(u64),
    /// Standard output failed after so many bytes.
    Write(u64),
    /// There is not enough memory.
    OutOfMemory,
    /// What was given cannot be read. The answer says so, so no line is written.
    Refused,
    /// It was done, and a name that was left out is near to a known one. The changes say so, so no line is written.
    Doubtful,
}

impl Stop<'_> {
    ghost use Rattle.std.specs.Prelude.{◌≡◌};
    ghost use Rattle.cli.specs.Stop.{status_of};

    /// The exit status: 2 for a fault of the command line, 4 if what was given cannot be read, 5 if what was done is doubtful, 3 for any
    /// other.
    pub fn status(&self) -> u8
        ensures { result ≡ status_of self.now }
    {
        match self {
            Stop::Usage => 2,
            Stop::Refused => 4,
            Stop::Doubtful => 5,
            _ => 3,
        }
    }
}

impl fmt::Display for Stop<'_> {
    ghost use Rattle.std.specs.Prelude.{Some};
    ghost use Rattle.cli.specs.Stop.{text_of};

    ghost output = { λ stop. Some (text_of stop) };

    fn fmt<W: fmt::Write>(&self, f: &mut fmt::Formatter<W>) -> fmt::Result {
        match *self {
            Stop::Usage => write!(f, "ccell: usage"),
            Stop::CannotRead(name) => write!(f, "ccell: cannot read {name}"),
            Stop::Read(line) => write!(f, "ccell: read failed at line {line}"),
            Stop::Write(out) => write!(f, "ccell: write failed after {out} bytes"),
            Stop::OutOfMemory => write!(f, "ccell: out of memory"),
            Stop::Refused => write!(f, "ccell: refused"),
            Stop::Doubtful => write!(f, "ccell: doubtful"),
        }
    }
}

impl From<AllocError> for Stop<'_> {
    ghost use Rattle.cli.specs.declared.stops.Stop.TheVariants.{OutOfMemory};

    ghost from_gives = { λ error stop. stop ≡ OutOfMemory };

    fn from(_error: AllocError) -> Self {
        Stop::OutOfMemory
    }
}

impl From<WriteFault> for Stop<'_> {
    ghost use Rattle.cli.specs.Stop.{stop_at_fault};

    ghost from_gives = { λ fault stop. stop ≡ stop_at_fault fault };

    fn from(fault: WriteFault) -> Self {
        match fault {
            WriteFault::Write { out } => Stop::Write(out),
            WriteFault::OutOfMemory => Stop::OutOfMemory,
        }
    }
}

impl From<ScriptFault> for Stop<'_> {
    ghost use Rattle.cli.specs.Stop.{stop_at_script};

    ghost from_gives = { λ fault stop. stop ≡ stop_at_script fault };

    fn from(fault: ScriptFault) -> Self {
        match fault {
            ScriptFault::Read { line } => Stop::Read(line),
            ScriptFault::Write { out } => Stop::Write(out),
            ScriptFault::Memory { .. } => Stop::OutOfMemory,
        }
    }
}

impl From<Misuse> for Stop<'_> {
    ghost use Rattle.cli.specs.Stop.{stop_at_misuse};

    ghost from_gives = { λ misuse stop. stop ≡ stop_at_misuse misuse };

    fn from(misuse: Misuse) -> Self {
        match misuse {
            Misuse::Usage => Stop::Usage,
            Misuse::OutOfMemory => Stop::OutOfMemory,
        }
    }
}

const ROOM: usize = 1024;

// The line of a file that cannot be read, where it has room.
fn line_of_name(name: &str) -> Option<ArrayString<ROOM>>
    ensures { IfSome result (λ line. line.bytes ≡ name_line name.now) }
{
    let mut line = ArrayString::new();
    if line.try_push_str("ccell: cannot read ").is_err() {
        return None;
    }
    if line.try_push_str(name).is_err() {
        return None;
    }
    if line.try_push_str("\n").is_err() {
        return None;
    }
    Some(line)
}

// Writes the line of a file that cannot be read in three parts.
fn tell_parts<E: Sink>(name: &str, err: &mut E) -> Result<(), WriteFault>
    ensures { Reports E.held E.failures err.old err.new (name_line name.now) }
{
    write_all(b"ccell: cannot read ", err)?;
    write_all(name.as_bytes(), err)?;
    write_all(b"\n", err)
}

// Writes the line of a file that cannot be read: in one write where it has room, since a file's name has no bound.
fn tell_name<E: Sink>(name: &str, err: &mut E) -> Result<(), WriteFault>
    ensures { Reports E.held E.failures err.old err.new (name_line name.now) }
{
    match line_of_name(name) {
        Some(line) => write_all(line.as_str().as_bytes(), err),
        None => tell_parts(name, err),
    }
}

fn line_of_read(at: u64) -> Line
    ensures { result.items ≡ line_of (Read at) }
{
    let mut line = Line::new();
    put(&mut line, b"ccell: read failed at line ");
    put_number(&mut line, at);
    put(&mut line, b"\n");
    line
}

fn line_of_write(out: u64) -> Line
    ensures { result.items ≡ line_of (Write out) }
{
    let mut line = Line::new();
    put(&mut line, b"ccell: write failed after ");
    put_number(&mut line, out);
    put(&mut line, b" bytes\n");
    line
}

// Writes the line that says why the program stops.
fn tell<E: Sink>(stop: &Stop<'_>, err: &mut E) -> Result<(), WriteFault>
    ensures { Reports E.held E.failures err.old err.new (line_of stop.now) }
{
    match stop {
        Stop::Usage => write_all(b"ccell: usage\n", err),
        Stop::CannotRead(name) => tell_name(name, err),
        Stop::Read(at) => write_all(line_of_read(*at).as_slice(), err),
        Stop::Write(out) => write_all(line_of_write(*out).as_slice(), err),
        Stop::OutOfMemory => write_all(b"ccell: out of memory\n", err),
        Stop::Refused => write_all(b"ccell: refused\n", err),
        Stop::Doubtful => write_all(b"ccell: doubtful\n", err),
    }
}

/// Writes the line that says why the program stops, and gives the exit status. A failure to write it changes nothing.
pub fn report<E: Sink>(stop: &Stop<'_>, err: &mut E) -> u8
    ensures status { result ≡ status_of stop.now }
    ensures line { Reports E.held E.failures err.old err.new (line_of stop.now) }
{
    let _ = tell(stop, err);
    stop.status()
}
