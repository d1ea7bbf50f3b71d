//! Instructions of classic BPF, and programs of them in the bytes that the kernel is given.
//!
//! A filter is a list of [`Insn`]s. [`Operation`] is what the code of one stands for.
//! [`Program::view`] reads a list from bytes and [`encode_into`] writes one.
//! `specs/` says how a program runs on a call record (`Machine`), and what an instruction is refused
//! for by itself (`Causes`).
#![tactic(auto)]

mod bytes;
mod code;
mod fault;
mod instruction;
mod view;

pub use bytes::encode_into;
pub use code::{Arithmetic, Operand, Operation, Test};
pub use fault::ViewError;
pub use instruction::Insn;
pub use view::{MAX_INSNS, Program};
