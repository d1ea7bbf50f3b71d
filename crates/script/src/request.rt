//! What a line asks for.
use crate::digits::Hex;
use machines::Arch;

/// What a line asks for, with its texts lent from the line.
#[derive(Clone, Copy)]
pub enum Request<'a> {
    /// A new container of the bundle with this name.
    Create {
        id: &'a str,
        bundle: &'a str,
    },
    Start {
        id: &'a str,
    },
    Delete {
        id: &'a str,
    },
    State {
        id: &'a str,
    },
    Kill {
        id: &'a str,
        signal: u64,
    },
    /// A call that a task makes, with a program beside it or none.
    Call {
        id: &'a str,
        task: u64,
        arch: Arch,
        nr: u32,
        args: [u64; 6],
        program: Option<Hex<'a>>,
    },
}
