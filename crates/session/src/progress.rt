//! A script, byte by byte.
ghost use Rattle.std.specs.Prelude.{◌≡◌, ◌≤◌, ◌+◌, ◌++◌, ℕ, [], ◌∷◌, List, Option, Err, IfOk, OnOk};
ghost use Rattle.std.specs.Vec.{vec_capacity};
ghost use Rattle.lifecycle.specs.Views.{world_of};

use crate::answer::answer_line;
use crate::bundles::Bundles;
use crate::carry::Session;
use crate::fault::ScriptFault;
use script::MAX_LINE;
use std::alloc::{AllocError, Global};
use texts::{Sink, WriteFault};

const LINE_FEED: u8 = 10;

/// A script that is being carried out.
#[derive(Drop)]
pub(crate) struct Progress<'a> {
    pub(crate) session: Session<'a>,
    // The line that is being read. Of one that is too long it has one byte more than a line may have.
    pub(crate) line: Vec<u8>,
    // How many lines were answered.
    pub(crate) count: u64,
    // By how many bytes.
    pub(crate) out: u64,
    alloc: Global,
    ghost room: { 70001 ≤ vec_capacity line },
}

impl<'a> Progress<'a> {
    ghost use Rattle.std.specs.Io.KnownBytes.{Consumes, IsAtEnd};
    ghost use Rattle.session.specs.Answer.{counted};
    ghost use Rattle.session.specs.Scripts.{IsAnswered, StopsForMemory, StopsWriting, TellsFailedWrite};
    ghost use Rattle.session.specs.declared.fault.ScriptFault.TheVariants as fault;
    ghost use Rattle.session.specs.inner.Cuts.{IsCut, kept_of};
    ghost use Rattle.session.specs.inner.Lines.{BreaksOff, GoesOn, HasCome, RunsOut, Standing, Stands};
    ghost use Rattle.session.specs.inner.Progress.{standing_of};
    ghost use Rattle.lifecycle.specs.Commands.{Command};

    /// A script of which nothing was read, with room for a line and for its longest program.
    pub(crate) fn new(alloc: Global, bundles: Bundles<'a>) -> Result<Progress<'a>, AllocError>
        ensures bundles { IfOk result (λ p. p.session.bundles ≡ bundles.entry) }
        ensures world { IfOk result (λ p. world_of p.session.runtime ≡ []) }
        ensures line { IfOk result (λ p. p.line.items ≡ []) }
        ensures count { IfOk result (λ p. p.count ≡ 0) }
        ensures out { IfOk result (λ p. p.out ≡ 0) }
    {
        let line = Vec::with_capacity(alloc, MAX_LINE + 1)?;
        let session = Session::new(alloc, bundles)?;
        Ok(Progress {
            session,
            line,
            count: 0,
            out: 0,
            alloc,
        })
    }

    // One more byte of the line, which is no line feed.
    fn keep(&mut self, byte: u8)
        ensures session { self.new.session ≡ self.old.session }
        ensures count { self.new.count ≡ self.old.count }
        ensures out { self.new.out ≡ self.old.out }
        ensures line { (part : List ℕ) → self.old.line.items ≡ kept_of part → self.new.line.items ≡ kept_of (part ++ byte ∷ []) }
    {
        if self.line.len() <= MAX_LINE {
            self.line.push_reserved(byte);
        }
    }

    // The line is at its end: it is carried out and answered.
    fn end_line<S: Sink>(&mut self, sink: &mut S) -> Result<(), ScriptFault>
        ensures bundles { self.new.session.bundles ≡ self.old.session.bundles }
        ensures ok { (held : Option (List ℕ)) (lines : List (List ℕ)) (part : List ℕ) (commands : List (Option Command))
            → Stands self.old.session.bundles (standing_of self.old) held (S.held sink.old) lines part commands
            → OnOk result (GoesOn self.old.session.bundles (standing_of self.new) held (S.held sink.new) lines part commands) }
        ensures write { (held : Option (List ℕ)) (lines : List (List ℕ)) (part : List ℕ) (commands : List (Option Command)) (out : ℕ)
            → Stands self.old.session.bundles (standing_of self.old) held (S.held sink.old) lines part commands
            → result ≡ Err (fault.Write out)
            → BreaksOff self.old.session.bundles held (S.held sink.new) part commands out }
        ensures memory { (held : Option (List ℕ)) (lines : List (List ℕ)) (part : List ℕ) (commands : List (Option Command)) (line : ℕ)
            → Stands self.old.session.bundles (standing_of self.old) held (S.held sink.old) lines part commands
            → result ≡ Err (fault.Memory line)
            → RunsOut self.old.session.bundles held (S.held sink.new) part commands line }
        ensures no_read { (line : ℕ) → result ≡ Err (fault.Read line) → ⊥ }
        ensures failures { TellsFailedWrite (S.failures sink.old) (S.failures sink.new) result }
    {
        let number = self.count.saturating_add(1);
        match answer_line(self.alloc, &mut self.session, &self.line, number, sink) {
            Ok(n) => {
                self.line.clear();
                self.count = number;
                self.out = self.out.saturating_add(n as u64);
                Ok(())
            }
            Err(WriteFault::Write { out }) => Err(ScriptFault::Write {
                out: self.out.saturating_add(out),
            }),
            Err(WriteFault::OutOfMemory) => Err(ScriptFault::Memory { line: number }),
        }
    }

    /// The number of the line that is read.
    pub(crate) fn number(&self) -> u64
        ensures { result ≡ counted (self.now.count + 1) }
    {
        self.count.saturating_add(1)
    }

    /// One more byte of the script.
    pub(crate) fn take<S: Sink>(&mut self, byte: u8, sink: &mut S) -> Result<(), ScriptFault>
        ensures bundles { self.new.session.bundles ≡ self.old.session.bundles }
        ensures ok { (left before after held : Option (List ℕ))
            → HasCome self.old.session.bundles (standing_of self.old) left before held (S.held sink.old)
            → Consumes before after (byte ∷ [])
            → OnOk result (HasCome self.old.session.bundles (standing_of self.new) left after held (S.held sink.new)) }
        ensures write { (left before after held : Option (List ℕ)) (out : ℕ)
            → HasCome self.old.session.bundles (standing_of self.old) left before held (S.held sink.old)
            → Consumes before after (byte ∷ []) → result ≡ Err (fault.Write out)
            → StopsWriting self.old.session.bundles left after held (S.held sink.new) out }
        ensures memory { (left before after held : Option (List ℕ)) (line : ℕ)
            → HasCome self.old.session.bundles (standing_of self.old) left before held (S.held sink.old)
            → Consumes before after (byte ∷ []) → result ≡ Err (fault.Memory line)
            → StopsForMemory self.old.session.bundles left after held (S.held sink.new) line }
        ensures no_read { (line : ℕ) → result ≡ Err (fault.Read line) → ⊥ }
        ensures failures { TellsFailedWrite (S.failures sink.old) (S.failures sink.new) result }
    {
        if byte == LINE_FEED {
            self.end_line(sink)
        } else {
            self.keep(byte);
            Ok(())
        }
    }

    /// No byte is left: what stands behind the last line feed counts if it is not empty.
    pub(crate) fn finish<S: Sink>(&mut self, sink: &mut S) -> Result<(), ScriptFault>
        ensures ok { (left end held : Option (List ℕ))
            → HasCome self.old.session.bundles (standing_of self.old) left end held (S.held sink.old) → IsAtEnd end
            → OnOk result (IsAnswered self.old.session.bundles left end held (S.held sink.new)) }
        ensures write { (left end held : Option (List ℕ)) (out : ℕ)
            → HasCome self.old.session.bundles (standing_of self.old) left end held (S.held sink.old) → IsAtEnd end
            → result ≡ Err (fault.Write out)
            → StopsWriting self.old.session.bundles left end held (S.held sink.new) out }
        ensures memory { (left end held : Option (List ℕ)) (line : ℕ)
            → HasCome self.old.session.bundles (standing_of self.old) left end held (S.held sink.old) → IsAtEnd end
            → result ≡ Err (fault.Memory line)
            → StopsForMemory self.old.session.bundles left end held (S.held sink.new) line }
        ensures no_read { (line : ℕ) → result ≡ Err (fault.Read line) → ⊥ }
        ensures failures { TellsFailedWrite (S.failures sink.old) (S.failures sink.new) result }
    {
        if self.line.is_empty() {
            return Ok(());
        }
        self.end_line(sink)
    }
}
