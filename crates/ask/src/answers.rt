//! Lines of answers.

use anyhow::bail;
use hex::{decode, encode};
use std::alloc::Global;
use std::fmt::{Display, Write};

/// Lines of answers, and whether each question has its own: there was memory for it, and what it is on.
#[derive(Drop)]
pub struct Answers {
    pub alloc: Global,
    text: String,
    is_whole: bool,
}

impl Answers {
    /// No lines.
    pub fn new(alloc: Global) -> Answers {
        Answers {
            alloc,
            text: String::new(alloc),
            is_whole: true,
        }
    }

    /// Adds a line.
    pub fn tell(&mut self, answer: impl Display + Drop) {
        if writeln!(self.text, "{answer}").is_err() {
            self.is_whole = false;
        }
    }

    /// Adds a line of bytes.
    pub fn tell_bytes(&mut self, bytes: &[u8]) {
        match encode(self.alloc, bytes) {
            Ok(digits) => self.tell(digits),
            Err(_) => self.is_whole = false,
        }
    }

    /// Adds a line of bytes that were made, or of why there are none, and hands them on.
    pub fn tell_made(&mut self, made: Result<Vec<u8>, impl Display + Drop>) -> Vec<u8> {
        match made {
            Ok(bytes) => {
                self.tell_bytes(&bytes);
                bytes
            }
            Err(e) => {
                self.tell(e);
                Vec::new(self.alloc)
            }
        }
    }

    /// The bytes of digits, and none where memory for them is refused.
    pub fn bytes(&mut self, digits: &str) -> Vec<u8> {
        match decode(self.alloc, digits) {
            Ok(bytes) => bytes,
            Err(_) => {
                self.is_whole = false;
                Vec::new(self.alloc)
            }
        }
    }

    /// Keeps in mind that a question has no answer.
    pub fn fail(&mut self) {
        self.is_whole = false;
    }

    /// Keeps in mind that a question has no answer, if there was no memory to tell one.
    pub fn keep(&mut self, is_done: bool) {
        if !is_done {
            self.is_whole = false;
        }
    }

    /// All lines.
    pub fn whole(&self) -> anyhow::Result<&str> {
        if !self.is_whole {
            bail!("a question without an answer");
        }
        Ok(self.text.as_str())
    }
}
