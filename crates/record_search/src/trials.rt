//! Records that are tried for unlike verdicts.

use crate::rules::Rules;
use crate::trace::{A, Run, Traced};
use crate::words::{NUMBER, TOKEN, Words, pool_of, record_of};
use crate::work::Work;
use bpf_insn::{MAX_INSNS, Operation};
use call_record::Record;
use call_tables::call_name;
use kernel_check::Accepted;
use std::alloc::{AllocError, Global};

// How much work all trials may be.
const WORK: u64 = 200_000_000;

// What else it takes to try a record, and how much a rule is that is judged.
const ONE: usize = 32;

const RULE: usize = 4;

// How many records, and ways, are told apart.
const SLOTS: usize = 1 << 16;

/// Records that were tried, and what was found.
#[derive(Drop)]
pub(crate) struct Trials<'a> {
    pub(crate) alloc: Global,
    pub(crate) rules: &'a Rules<'a>,
    program: Accepted<'a>,
    pub(crate) work: Work,
    /// Numbers of which records are made by chance.
    pub(crate) pool: Vec<(u8, u32)>,
    // Marks of records that were tried, and of ways that runs took.
    tried: Vec<u64>,
    ways: Vec<u64>,
    /// What the last run compared.
    pub(crate) compared: Vec<(Traced, Traced)>,
    /// Records whose runs took a way that none before them took.
    pub(crate) queue: Vec<Words>,
    /// A record that gets unlike verdicts: a call of the tables, and any other one.
    pub(crate) found: Option<Record>,
    pub(crate) other: Option<Record>,
}

/// A mark in which another number is mixed.
pub(crate) fn mixed(mark: u64, number: u32) -> u64 {
    let mixed = (mark ^ u64::from(number)).wrapping_mul(0x9e37_79b9_7f4a_7c15);
    mixed ^ mixed >> 29
}

// Puts a mark, unless it is there. A later mark may take its place.
fn put(marks: &mut [u64], mark: u64) -> bool {
    let mark = mark | 1;
    let slot = (mark >> 32) as usize % SLOTS;
    match marks.get_mut(slot) {
        Some(old) if *old != mark => {
            *old = mark;
            true
        }
        _ => false,
    }
}

impl<'a> Trials<'a> {
    /// None is tried.
    pub(crate) fn new(
        alloc: Global,
        rules: &'a Rules<'a>,
        program: Accepted<'a>,
    ) -> Result<Trials<'a>, AllocError> {
        Ok(Trials {
            alloc,
            rules,
            program,
            work: Work::new(WORK),
            pool: pool_of(alloc, rules.profile.rules(), &program)?,
            tried: vec![in alloc; 0; SLOTS]?,
            ways: vec![in alloc; 0; SLOTS]?,
            compared: Vec::new(alloc),
            queue: Vec::new(alloc),
            found: None,
            other: None,
        })
    }

    /// Whether nothing more is to be tried for now.
    pub(crate) fn is_over(&self) -> bool {
        self.found.is_some() || self.work.is_over()
    }

    /// The number that the filter gives, and whether its run took a way that no run before took to this verdict of the profile.
    pub(crate) fn run(&mut self, words: &Words, said: u32) -> Result<(Traced, bool), AllocError> {
        let mut run = Run::new();
        let mut is_new = false;
        self.compared.clear();
        for _ in 0..MAX_INSNS {
            let Some(insn) = self.program.insn_at(run.pc) else {
                break;
            };
            self.work.spend(1);
            let skipped = match insn.operation() {
                Some(Operation::ReturnK) | None => return Ok((Traced::of(insn.k, None), is_new)),
                Some(Operation::ReturnA) => return Ok((run.registers[A], is_new)),
                Some(Operation::Jump) => insn.k,
                Some(Operation::Branch(test, operand)) => {
                    let (a, other) = (run.registers[A], run.value(operand, insn.k));
                    self.compared.push((a, other))?;
                    let holds = test.holds(a.number, other.number);
                    let way = (u32::from(run.pc) << 1) | u32::from(holds);
                    is_new |= put(&mut self.ways, mixed(mixed(1, said), way));
                    u32::from(if holds { insn.jt } else { insn.jf })
                }
                Some(operation) => {
                    run.compute(operation, insn.k, words);
                    0
                }
            };
            run.skip(skipped);
        }
        Ok((Traced::of(said, None), is_new))
    }

    // Whether a record is a call of the tables of the profile's machines.
    fn is_listed(&self, call: &Record) -> bool {
        let machines = self.rules.profile.machines();
        machines.iter().any(|arch| arch.token() == call.arch && call_name(*arch, call.nr).is_some())
    }

    /// Tries the record of these words.
    pub(crate) fn attempt(&mut self, words: &Words) -> Result<(), AllocError> {
        if self.is_over() {
            return Ok(());
        }
        let mut mark = 0;
        for number in words {
            mark = mixed(mark, *number);
        }
        self.work.spend(ONE);
        if !put(&mut self.tried, mark) {
            return Ok(());
        }
        let call = record_of(words);
        let said = self.rules.profile.decide(&call).0;
        let number = words[NUMBER as usize];
        let judged = self
            .rules
            .among(words[TOKEN as usize], number, number)
            .len();
        self.work.spend(judged.saturating_mul(RULE));
        let (given, is_new) = self.run(words, said)?;
        if given.number != said {
            if self.is_listed(&call) {
                self.found = Some(call);
            } else {
                self.other = self.other.or(Some(call));
            }
        }
        if is_new {
            self.queue.push(*words)?;
        }
        Ok(())
    }
}
