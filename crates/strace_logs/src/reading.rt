//! Logs, read from sources.
ghost use Rattle.std.specs.Prelude.{◌≡◌, ◌++◌, ℕ, List, [], ◌∷◌, true, false, IfOk};
ghost use Rattle.wording.specs.Lines.{lines_of};
ghost use Rattle.strace_logs.specs.Given.{GivesAll};
ghost use Rattle.strace_logs.specs.Taken.{AreTaken, HasCome, HaveShown};

use crate::calls::{Calls, see};
use crate::keeps::Keep;
use crate::strace::call_in;
use crate::unread::Unread;
use machines::Arch;
use std::alloc::{AllocError, Global};
use texts::Source;

/// Why a log was not read.
#[derive(Clone, Copy)]
pub enum LogFault {
    /// Its source failed.
    CannotRead,
    /// There is not enough memory.
    OutOfMemory,
}

impl From<AllocError> for LogFault {
    fn from(_error: AllocError) -> LogFault {
        LogFault::OutOfMemory
    }
}

// A log as far as it was read: its name, the part of a line that came last, and the number of that line.
#[derive(Drop)]
struct Progress<'a> {
    name: &'a str,
    part: Vec<u8>,
    number: u64,
    unread: Unread,
}

const LINE_FEED: u8 = 10;

// Adds the call that a line tells, if it tells one.
fn take_line(
    native: Arch,
    keeps: &[Keep<'_>],
    place: (&str, u64),
    line: &[u8],
    unread: &mut Unread,
    calls: &mut Calls,
) -> Result<(), AllocError>
    ensures { (lines : List (List ℕ)) → AreTaken native lines calls.old.seen.items
        → IfOk result (λ _. AreTaken native (lines ++ line.now ∷ []) calls.new.seen.items) }
{
    match call_in(native, line) {
        Some(call) => see(keeps, &call, calls),
        None => unread.pass_over(place, line),
    }
}

// Takes the line that has come whole.
fn end_line(
    native: Arch,
    keeps: &[Keep<'_>],
    progress: &mut Progress<'_>,
    calls: &mut Calls,
) -> Result<(), AllocError>
    ensures taken { (lines : List (List ℕ)) → AreTaken native lines calls.old.seen.items
        → IfOk result (λ _. AreTaken native (lines ++ progress.old.part.items ∷ []) calls.new.seen.items) }
    ensures part { IfOk result (λ _. progress.new.part.items ≡ []) }
{
    let place = (progress.name, progress.number);
    take_line(
        native,
        keeps,
        place,
        &progress.part,
        &mut progress.unread,
        calls,
    )?;
    progress.part.clear();
    progress.number = progress.number.saturating_add(1);
    Ok(())
}

// Takes one more byte of a log.
fn take_byte(
    native: Arch,
    keeps: &[Keep<'_>],
    byte: u8,
    progress: &mut Progress<'_>,
    calls: &mut Calls,
) -> Result<(), AllocError>
    ensures { (before : List (List ℕ)) (text : List ℕ) → HasCome native before text progress.old.part.items calls.old.seen.items
        → IfOk result (λ _. HasCome native before (text ++ byte ∷ []) progress.new.part.items calls.new.seen.items) }
{
    if byte == LINE_FEED {
        return end_line(native, keeps, progress, calls);
    }
    progress.part.push(byte)?;
    Ok(())
}

// Takes more bytes of a log.
fn take_bytes(
    native: Arch,
    keeps: &[Keep<'_>],
    bytes: &[u8],
    progress: &mut Progress<'_>,
    calls: &mut Calls,
) -> Result<(), AllocError>
    ensures { (before : List (List ℕ)) (text : List ℕ) → HasCome native before text progress.old.part.items calls.old.seen.items
        → IfOk result (λ _. HasCome native before (text ++ bytes.now) progress.new.part.items calls.new.seen.items) }
{
    for byte in bytes {
        take_byte(native, keeps, *byte, progress, calls)?;
    }
    Ok(())
}

// Takes all that a source has.
fn take_all<I: Source>(
    native: Arch,
    keeps: &[Keep<'_>],
    source: &mut I,
    progress: &mut Progress<'_>,
    calls: &mut Calls,
) -> Result<(), LogFault>
    ensures { (before : List (List ℕ)) → progress.old.part.items ≡ [] → AreTaken native before calls.old.seen.items
        → IfOk result (λ _. (text : List ℕ) × GivesAll (I.left source.old) (I.left source.new) text
        × AreTaken native (before ++ lines_of text) calls.new.seen.items) }
{
    let mut buffer = [0u8; 4096];
    'part: loop {
        match source.read(&mut buffer) {
            Ok(0) => return Ok(end_line(native, keeps, progress, calls)?),
            Ok(count) => take_bytes(native, keeps, &buffer[..count], progress, calls)?,
            Err(_) => return Err(LogFault::CannotRead),
        }
    }
}

/// What logs show, as far as they were read: the calls, the lines that were not read, and the first log without a record.
#[derive(Drop)]
pub struct Shown {
    pub(crate) calls: Calls,
    pub(crate) unread: Unread,
    pub(crate) is_lacking: bool,
    pub(crate) lacking: String,
}

impl Shown {
    /// What no logs show.
    pub fn new(alloc: Global) -> Shown
        ensures { (native : Arch) → HaveShown native [] result }
    {
        Shown {
            calls: Calls::new(alloc),
            unread: Unread::new(alloc),
            is_lacking: false,
            lacking: String::new(alloc),
        }
    }

    // Keeps in mind that a log has no record.
    fn lack(&mut self, alloc: Global, name: &str) -> Result<(), AllocError>
        ensures { IfOk result (λ _. self.new.is_lacking ≡ true) }
    {
        if self.is_lacking {
            return Ok(());
        }
        self.lacking = String::from_str(alloc, name)?;
        self.is_lacking = true;
        Ok(())
    }

    /// Reads a log to its end, a part at a time: what it shows is added to what those before it show. A log that has no record is
    /// kept in mind; such logs give no bundle.
    pub fn read_log<I: Source>(
        &mut self,
        alloc: Global,
        native: Arch,
        keeps: &[Keep<'_>],
        name: &str,
        source: &mut I,
    ) -> Result<(), LogFault>
        ensures { (texts : List (List ℕ)) → HaveShown native texts self.old → IfOk result (λ _. self.new.is_lacking ≡ false
            → (text : List ℕ) × GivesAll (I.left source.old) (I.left source.new) text × HaveShown native (texts ++ text ∷ []) self.new) }
    {
        let before = self.calls.records;
        let mut progress = Progress {
            name,
            part: Vec::new(alloc),
            number: 1,
            unread: self.unread.behind(alloc),
        };
        take_all(native, keeps, source, &mut progress, &mut self.calls)?;
        self.unread.add(&progress.unread)?;
        if self.calls.records == before {
            return Ok(self.lack(alloc, name)?);
        }
        Ok(())
    }
}
