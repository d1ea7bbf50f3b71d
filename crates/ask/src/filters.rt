//! Questions on filters: `bytes DIGITS` is the filter from then on. `run RECORD` tells its verdict, how many instructions ran, and whether
//! it allows the call by its number and machine alone. Or it tells what the kernel's check says.

use crate::answers::Answers;
use crate::desk::Desk;
use crate::question::Question;
use bpf_insn::Program;
use bpf_interp::{fixed_allow, verdict_counted};
use call_record::Record;
use kernel_check::{Accepted, accept};

impl Desk {
    /// Answers a question on filters.
    pub fn on_filter(&mut self, mut question: Question<'_>) {
        if question.part() == "bytes" {
            self.filter = self.out.bytes(question.part());
            return;
        }
        tell_run(&mut self.out, &self.filter, &question.record());
    }
}

// Tells what becomes of a call under a filter.
fn tell_run(out: &mut Answers, filter: &[u8], call: &Record) {
    let program = match Program::view(filter) {
        Ok(program) => program,
        Err(e) => return out.tell(e),
    };
    match accept(&program) {
        Ok(accepted) => tell_verdict(out, &accepted, call),
        Err(refused) => out.tell(refused),
    }
}

fn tell_verdict(out: &mut Answers, accepted: &Accepted<'_>, call: &Record) {
    let (word, count) = verdict_counted(accepted, call);
    out.tell(word);
    out.tell(count);
    out.tell(fixed_allow(accepted, call.arch, call.nr));
}
