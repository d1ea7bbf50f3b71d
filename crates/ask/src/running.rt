//! The runtime over the kernel whose tasks have lists of filters: `runtime` and commands with tabs between. Each is `create ID PLACE`,
//! `start ID`, `kill ID SIG`, `delete ID` or `state ID`. Or it is `call ID TASK RECORD PROGRAM RESPONSE`, or `id - PLACE`. The place of
//! `create` is that of what was kept. The last asks for the id of a container by its place.

use crate::answers::Answers;
use crate::desk::Made;
use crate::question::Question;
use call_record::Record;
use lifecycle::{Command, Runtime};
use processes::{Response, TaskTable};

/// Tells the replies to commands.
pub fn answer(kept: &[Made], out: &mut Answers, question: Question<'_>) {
    let mut runtime = Runtime::new(out.alloc, TaskTable::new(out.alloc));
    for command in question.rest.split('\t') {
        answer_one(&mut runtime, kept, out, Question::new(command));
    }
}

// Tells the reply to a command.
fn answer_one<'a>(
    runtime: &mut Runtime<'a, TaskTable>,
    kept: &'a [Made],
    out: &mut Answers,
    mut question: Question<'_>,
) {
    let kind = question.part();
    let id = question.part();
    match kind {
        "create" => create(runtime, kept, out, id, question.place()),
        "start" => carry_out(runtime, out, Command::Start(id)),
        "kill" => carry_out(runtime, out, Command::Kill(id, question.number())),
        "delete" => carry_out(runtime, out, Command::Delete(id)),
        "state" => carry_out(runtime, out, Command::State(id)),
        "call" => call(runtime, out, id, question),
        _ => tell_id(runtime, out, question.place()),
    }
}

// Carries a command out, and tells its reply, where there was memory.
fn carry_out<'a>(
    runtime: &mut Runtime<'a, TaskTable>,
    out: &mut Answers,
    command: Command<'a, '_>,
) {
    match runtime.carry_out(command) {
        Ok(reply) => out.tell(format_args!("{reply:?}")),
        Err(_) => out.fail(),
    }
}

// Creates a container with what was kept at a place.
fn create<'a>(
    runtime: &mut Runtime<'a, TaskTable>,
    kept: &'a [Made],
    out: &mut Answers,
    id: &str,
    place: usize,
) {
    let Some(made) = kept.get(place) else {
        return out.fail();
    };
    match made.checked(out.alloc) {
        Ok(checked) => carry_out(runtime, out, Command::Create(id, checked)),
        Err(_) => out.fail(),
    }
}

// The command by which a task presents a record, with a program attached unless that is empty.
fn call_of<'a, 'c, 'r: 'c>(
    id: &'r str,
    task: u64,
    record: Record,
    program: &'c [u8],
    response: Option<Response>,
) -> Command<'a, 'c> {
    let attached = if program.is_empty() {
        None
    } else {
        Some(program)
    };
    Command::Call(id, task, record, attached, response)
}

// Makes a call.
fn call(
    runtime: &mut Runtime<'_, TaskTable>,
    out: &mut Answers,
    id: &str,
    mut question: Question<'_>,
) {
    let task = question.number();
    let record = question.record();
    let program = out.bytes(question.part());
    let response = question.response();
    let command = call_of(id, task, record, program.as_slice(), response);
    carry_out(runtime, out, command);
}

fn tell_id(runtime: &Runtime<'_, TaskTable>, out: &mut Answers, place: usize) {
    let id = runtime.id_at(place);
    out.tell(format_args!("{id:?}"));
}
