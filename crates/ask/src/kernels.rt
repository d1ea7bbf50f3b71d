//! Questions on containers of the modelled kernel, each asked of both kernels and answered by both: `admit ID PLACE`, which expels
//! that id first and admits it with what was kept at a place; `call ID TASK RECORD PROGRAM RESPONSE`, where the program may be empty
//! and the response, of a listener, missing; `signal ID SIG`, `expel ID`, `live ID`, and `task ID TASK`, which shows a task. `anew` begins without containers, and with nothing
//! kept.

use crate::answers::Answers;
use crate::desk::Desk;
use crate::question::Question;
use processes::{Id, Kernel, LAST_SIGNAL, TaskTable};
use shared_table::SharedTable;
use std::alloc::Global;

/// The kernel whose tasks have lists of filters, and that whose filters stand in a tree.
#[derive(Drop)]
pub struct Kernels {
    lists: TaskTable,
    tree: SharedTable,
}

impl Kernels {
    /// Both without containers.
    pub fn new(alloc: Global) -> Kernels {
        Kernels {
            lists: TaskTable::new(alloc),
            tree: SharedTable::new(alloc),
        }
    }

    /// Answers a question on containers.
    pub fn answer(&mut self, desk: &mut Desk, mut question: Question<'_>) {
        let kind = question.part();
        if kind == "anew" {
            *self = Kernels::new(desk.out.alloc);
            return desk.kept.clear();
        }
        let Some(id) = Id::read(question.part()) else {
            return desk.out.fail();
        };
        carry_out(&mut self.lists, desk, kind, &id, question);
        carry_out(&mut self.tree, desk, kind, &id, question);
    }
}

// Answers by one kernel.
fn carry_out<K: Kernel>(
    kernel: &mut K,
    desk: &mut Desk,
    kind: &str,
    id: &Id,
    mut question: Question<'_>,
) {
    match kind {
        "admit" => admit(kernel, desk, id, question.place()),
        "call" => present(kernel, &mut desk.out, id, question),
        "signal" => signal(kernel, &mut desk.out, id, question.number()),
        "live" => desk.out.tell(kernel.live(id)),
        "task" => show(kernel, &mut desk.out, id, question.number()),
        _ => kernel.expel(id),
    }
}

// Admits a container, anew if it is there.
fn admit<K: Kernel>(kernel: &mut K, desk: &mut Desk, id: &Id, place: usize) {
    let Some(made) = desk.kept.get(place) else {
        return desk.out.fail();
    };
    match made.checked(desk.out.alloc) {
        Ok(checked) => {
            kernel.expel(id);
            let is_admitted = kernel.admit(id, checked).is_ok();
            desk.out.keep(is_admitted);
        }
        Err(_) => desk.out.fail(),
    }
}

// Tells what becomes of a call.
fn present<K: Kernel>(kernel: &mut K, out: &mut Answers, id: &Id, mut question: Question<'_>) {
    let task = question.number();
    let call = question.record();
    let program = out.bytes(question.part());
    let attached = if program.is_empty() {
        None
    } else {
        Some(program.as_slice())
    };
    match kernel.present(id, task, &call, attached, question.response()) {
        Ok(outcome) => out.tell(format_args!("{outcome:?}")),
        Err(_) => out.keep(false),
    }
}

// Sends a signal, which a live container takes.
fn signal<K: Kernel>(kernel: &mut K, out: &mut Answers, id: &Id, sig: u64) {
    if !kernel.live(id) {
        return out.tell("no live container");
    }
    if sig > LAST_SIGNAL {
        return out.tell("no signal");
    }
    kernel.signal(id, sig);
}

fn show<K: Kernel>(kernel: &K, out: &mut Answers, id: &Id, task: u64) {
    let view = kernel.task(id, task);
    out.tell(format_args!("{view:?}"));
}
