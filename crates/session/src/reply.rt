//! The lines that are answered.
ghost use Rattle.std.specs.Prelude.{◌≡◌, ◌≤◌, ◌+◌, ◌++◌, ◌∷◌, [], Err, IfOk, length, string_bytes};
ghost use Rattle.arrayvec.specs.ArrayVec.{array_vec_len};
ghost use Rattle.serde_json.specs.View.{view};
ghost use Rattle.serde_json.specs.Written.{compact_text};
ghost use Rattle.texts.specs.Sink.{Writes, WritesMade};
ghost use Rattle.texts.specs.declared.streams.fault.WriteFault.TheVariants.{OutOfMemory};
ghost use Rattle.lifecycle.specs.Fault as refusal;
ghost use Rattle.lifecycle.specs.declared.command.Reply.TheVariants.{IsIn};
ghost use Rattle.lifecycle.specs.declared.command.Status.{Status};
ghost use Rattle.texts.specs.Lines.{line_feed};
ghost use Rattle.session.specs.Replies.{no_command_line, outcome_text, reply_line, state_of, status_name};

use lifecycle::{Refusal, Reply, Status};
use processes::Outcome;
use serde_json::{Value, json};
use std::alloc::{AllocError, Global};
use texts::{Line, Sink, WriteFault, put, put_label, put_number, write_all};

// Adds what became of a call.
fn put_outcome(line: &mut Line, outcome: Outcome)
    requires { array_vec_len line.old ≤ 16 }
    ensures items { line.new.items ≡ line.old.items ++ outcome_text outcome }
    ensures len { array_vec_len line.new ≤ array_vec_len line.old + 30 }
{
    match outcome {
        Outcome::Done(answer) => {
            put(line, b"done ");
            put_number(line, answer);
        }
        Outcome::Failed(errno) => {
            put(line, b"failed ");
            put_number(line, errno);
        }
        Outcome::Absent => put(line, b"absent"),
        Outcome::Denied(word) => {
            put(line, b"denied ");
            put(line, &word.text());
        }
        Outcome::Answered(value) => {
            put(line, b"answered ");
            put_number(line, value);
        }
        Outcome::Declined(errno) => {
            put(line, b"declined ");
            put_number(line, errno);
        }
        Outcome::NoTask => put(line, b"no task"),
    }
}

// Adds the verdict by which a start was refused.
fn put_verdict(line: &mut Line, refused: &Refusal)
    requires { array_vec_len line.old ≤ 48 }
    ensures items { line.new.items ≡ line.old.items ++ refusal.verdict_text refused.now }
    ensures len { array_vec_len line.new ≤ array_vec_len line.old + 11 }
{
    if let Refusal::StartDenied(word) = refused {
        put(line, b" ");
        put(line, &word.text());
    }
}

// Adds why a command is refused.
fn put_refusal(line: &mut Line, refused: &Refusal)
    requires { array_vec_len line.old ≤ 8 }
    ensures items { line.new.items ≡ line.old.items ++ refusal.text_of refused.now }
    ensures len { array_vec_len line.new ≤ array_vec_len line.old + 40 }
{
    let (number, name) = refused.label();
    put_label(line, number, name);
    put_verdict(line, refused);
}

// The name of a status.
fn name_of(status: Status) -> &'static str
    ensures { result.now ≡ status_name status }
{
    match status {
        Status::Created => "created",
        Status::Running => "running",
        Status::Stopped => "stopped",
    }
}

// The state of a container.
fn state_value(alloc: Global, id: &str, status: Status) -> Result<Value, AllocError>
    ensures { IfOk result (λ v. view v ≡ state_of id.now status) }
{
    json!(in alloc; {"id": id, "ociVersion": "1.0.2", "status": name_of(status)})
}

// The line that tells the state of a container.
fn state_line(alloc: Global, id: &str, status: Status) -> Result<String, AllocError>
    ensures { IfOk result (λ s. string_bytes s ≡ compact_text (state_of id.now status) ++ line_feed ∷ []) }
{
    let mut line = state_value(alloc, id, status)?.to_string(alloc)?;
    line.push_str("\n")?;
    Ok(line)
}

// Writes a line, and says how many bytes it has.
fn send<S: Sink>(line: &[u8], sink: &mut S) -> Result<usize, WriteFault>
    ensures written { Writes S.held S.failures sink.old sink.new line.now result }
    ensures len { IfOk result (λ n. n ≡ length line.now) }
{
    write_all(line, sink)?;
    Ok(line.len())
}

/// Writes the line of a reply to a command that names this container, and says how many bytes it has. Only a state takes
/// memory, before the first byte.
pub(crate) fn write_reply<S: Sink>(
    alloc: Global,
    id: &str,
    reply: &Reply,
    sink: &mut S,
) -> Result<usize, WriteFault>
    ensures written { WritesMade S.held S.failures sink.old sink.new (reply_line id.now reply.now) result }
    ensures len { IfOk result (λ n. n ≡ length (reply_line id.now reply.now)) }
    ensures memory { result ≡ Err OutOfMemory → (s : Status) × (reply.now ≡ IsIn s) }
{
    let mut line = Line::new();
    match reply {
        Reply::Accepted => put(&mut line, b"ok"),
        Reply::Refused(refused) => {
            put(&mut line, b"refused ");
            put_refusal(&mut line, refused);
        }
        Reply::Presented(outcome) => put_outcome(&mut line, *outcome),
        Reply::IsIn(status) => {
            return send(state_line(alloc, id, *status)?.as_bytes(), sink);
        }
    }
    put(&mut line, b"\n");
    send(line.as_slice(), sink)
}

/// Writes the line that says that the line of this number is no command, and says how many bytes it has.
pub(crate) fn write_no_command<S: Sink>(number: u64, sink: &mut S) -> Result<usize, WriteFault>
    ensures written { Writes S.held S.failures sink.old sink.new (no_command_line number) result }
    ensures len { IfOk result (λ n. n ≡ length (no_command_line number)) }
{
    let mut line = Line::new();
    put(&mut line, b"line ");
    put_number(&mut line, number);
    put(&mut line, b" is no command\n");
    send(line.as_slice(), sink)
}
