//! The parts of a question.

use call_record::{Record, Word};
use machines::Arch;
use processes::Response;

/// What is left of a question.
#[derive(Clone, Copy)]
pub struct Question<'a> {
    pub rest: &'a str,
}

impl<'a> Question<'a> {
    /// All of a line.
    pub fn new(line: &'a str) -> Question<'a> {
        Question { rest: line }
    }

    /// The next part, empty where none is left.
    pub fn part(&mut self) -> &'a str {
        let (part, rest) = self.rest.split_once(' ').unwrap_or((self.rest, ""));
        self.rest = rest;
        part
    }

    /// The next number.
    pub fn number(&mut self) -> u64 {
        self.part().parse::<u64>().unwrap_or(0)
    }

    /// The next number of 32 bits.
    pub fn narrow(&mut self) -> u32 {
        self.part().parse::<u32>().unwrap_or(0)
    }

    /// The next number, as a place of a list.
    pub fn place(&mut self) -> usize {
        self.part().parse::<usize>().unwrap_or(0)
    }

    /// The next verdict.
    pub fn verdict(&mut self) -> Word {
        Word(self.narrow())
    }

    /// The next machine.
    pub fn machine(&mut self) -> Arch {
        Arch::called(self.part()).unwrap_or(Arch::X86_64)
    }

    /// What a listener responds: `continue`, `value N`, `error N`, or nothing.
    pub fn response(&mut self) -> Option<Response> {
        match self.part() {
            "continue" => Some(Response::Continue),
            "value" => Some(Response::Value(self.number())),
            "error" => Some(Response::Error(self.part().parse::<u16>().unwrap_or(0))),
            _ => None,
        }
    }

    /// The next six arguments.
    pub fn arguments(&mut self) -> [u64; 6] {
        let mut arguments = [0; 6];
        for argument in &mut arguments {
            *argument = self.number();
        }
        arguments
    }

    /// The next record: number, token, pointer and arguments.
    pub fn record(&mut self) -> Record {
        Record {
            nr: self.narrow(),
            arch: self.narrow(),
            ip: self.number(),
            args: self.arguments(),
        }
    }
}
