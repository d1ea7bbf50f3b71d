//! Answers questions to the library, which tests/rows puts. There is a question a line on standard input, and under it its
//! answers, a line each, and then a line `.`. Drawing, counting, comparing and all texts that people read or write are the
//! script's.
//!
//! A question begins with what it is on (`profile`, `filter`, `cert`, `verdict`, `kernel` or `runtime`) and what is asked. The
//! module of that name has the parts. Between any two parts stands one space. Numbers are decimal and bytes hexadecimal digits;
//! a part that is missing, or none of these, counts as 0. Of many values the answer is their `Debug`. Where there is no memory,
//! or nothing that a question is on, no answer is written at all, and the status is 1.
#![tactic(auto)]

mod answers;
mod certificates;
mod desk;
mod filters;
mod grid;
mod kernels;
mod profiles;
mod question;
mod rules;
mod running;
mod verdicts;

use crate::desk::Desk;
use crate::kernels::Kernels;
use crate::question::Question;
use anyhow::Result;
use std::io;

// Answers a line.
fn answer(desk: &mut Desk, kernels: &mut Kernels, line: &str) {
    let mut question = Question::new(line);
    match question.part() {
        "profile" => desk.on_profile(question),
        "filter" => desk.on_filter(question),
        "cert" => certificates::answer(&mut desk.out, question),
        "verdict" => verdicts::answer(&mut desk.out, question),
        "kernel" => kernels.answer(desk, question),
        "runtime" => running::answer(&desk.kept, &mut desk.out, question),
        _ => desk.out.fail(),
    }
    desk.out.tell(".");
}

fn main(rt: HostRuntime) -> Result<()> {
    let text = io::read_to_string(rt.alloc(), rt.stdin())?;
    let mut desk = Desk::new(rt.alloc());
    let mut kernels = Kernels::new(rt.alloc());
    for line in text.lines() {
        answer(&mut desk, &mut kernels, line);
    }
    rt.print(desk.out.whole()?)?;
    Ok(())
}
