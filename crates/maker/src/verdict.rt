//! What is said of a filter and a record, and the line of `ccell verdict`.
ghost use Rattle.std.specs.Prelude.{◌≡◌};
ghost use Rattle.maker.specs.Answer.{IsAnswer, WritesAnswer, line_of};

use bpf_insn::{Program, ViewError};
use bpf_interp::verdict;
use call_record::{Record, Word};
use kernel_check::{Refused, accept};
use texts::{Line, Sink, WriteFault, put, put_label, put_number, write_all};

/// A verdict, or why there is none.
#[derive(Clone, Copy)]
pub enum Answer {
    Verdict(Word),
    NoRecord,
    NoProgram(ViewError),
    Refusal(Refused),
}

/// The answer to a filter's and a record's bytes.
pub fn answer_to(filter: &[u8], rec: &[u8]) -> Answer
    ensures { IsAnswer filter.now rec.now result }
{
    let Ok(bytes) = <&[u8; 64]>::try_from(rec) else {
        return Answer::NoRecord;
    };
    let program = match Program::view(filter) {
        Ok(program) => program,
        Err(e) => return Answer::NoProgram(e),
    };
    match accept(&program) {
        Ok(accepted) => Answer::Verdict(verdict(&accepted, &Record::from_bytes(bytes))),
        Err(e) => Answer::Refusal(e),
    }
}

// The line that says the answer.
fn line(answer: &Answer) -> Line
    ensures { result.items ≡ line_of answer.now }
{
    let mut line = Line::new();
    match answer {
        Answer::Verdict(word) => put(&mut line, &word.text()),
        Answer::NoRecord => put(&mut line, b"refused record"),
        Answer::NoProgram(e) => {
            put(&mut line, b"refused view ");
            let (number, name) = e.label();
            put_label(&mut line, number, name);
        }
        Answer::Refusal(e) => {
            put(&mut line, b"refused kernel ");
            let (number, name) = e.cause.label();
            put_label(&mut line, number, name);
            put(&mut line, b" pc ");
            put_number(&mut line, e.pc);
        }
    }
    put(&mut line, b"\n");
    line
}

/// Writes the line for a filter and a record. It is true of a verdict, and false of a refusal.
pub fn verdict_line<S: Sink>(filter: &[u8], rec: &[u8], sink: &mut S) -> Result<bool, WriteFault>
    ensures { WritesAnswer S.held S.failures sink.old sink.new filter.now rec.now result }
{
    let answer = answer_to(filter, rec);
    write_all(line(&answer).as_slice(), sink)?;
    Ok(matches!(answer, Answer::Verdict(_)))
}
