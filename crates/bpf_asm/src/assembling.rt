//! From a text to its program.
ghost use Rattle.std.specs.Prelude.{◌≡◌, ◌≤◌, List, ℕ, None, IfErr, IfOk, MatchResult, vec_len};
ghost use Rattle.bpf_insn.specs.Bytes.{AreBytes, AreInsns, insns_of, max_insns, view_fault};
ghost use Rattle.bpf_asm.specs.Faults.{Explains};
ghost use Rattle.bpf_asm.specs.Listing.{listing};

use crate::fault::{AsmError, LineFault};
use crate::line::read_line;
use bpf_insn::{Insn, MAX_INSNS, encode_into};
use std::alloc::Global;
use texts::split;

// The instructions of the lines, of which there are 1 to 4096.
fn read_lines(alloc: Global, text: &str) -> Result<Vec<Insn>, AsmError>
    ensures each { IfOk result (λ insns. AreInsns insns.items) }
    ensures listed { IfOk result (λ insns. listing insns.items ≡ text.now) }
    ensures some { IfOk result (λ insns. 1 ≤ vec_len insns) }
    ensures limit { IfOk result (λ insns. vec_len insns ≤ max_insns) }
    ensures fault { IfErr result (Explains text.now) }
{
    let mut insns = Vec::new(alloc);
    let mut rest = text;
    while !rest.is_empty() {
        let line = insns.len() + 1;
        if line > MAX_INSNS {
            let fault = LineFault::TooLong;
            return Err(AsmError::Line { line, fault });
        }
        let Some((own, after)) = split(rest, '\n') else {
            let fault = read_line(rest).err().unwrap_or(LineFault::BadLine);
            return Err(AsmError::Line { line, fault });
        };
        match read_line(own) {
            Ok(insn) => insns.push(insn)?,
            Err(fault) => return Err(AsmError::Line { line, fault }),
        }
        rest = after;
    }
    if insns.is_empty() {
        let fault = LineFault::BadLine;
        return Err(AsmError::Line { line: 1, fault });
    }
    Ok(insns)
}

/// The bytes of the program whose listing the text is.
///
/// The error is the first line with a fault, or that there is no memory for the bytes.
pub fn assemble(alloc: Global, text: &str) -> Result<Vec<u8>, AsmError>
    // What is given are the bytes of a program, and the text is its listing.
    ensures program { IfOk result (λ bytes. view_fault bytes.items ≡ None) }
    ensures listed { IfOk result (λ bytes. listing (insns_of bytes.items) ≡ text.now) }
    // The bytes of a program whose listing the text is are given, unless there is no memory.
    ensures only { (bytes : List ℕ) → AreBytes bytes → view_fault bytes ≡ None → listing (insns_of bytes) ≡ text.now
        → MatchResult result (λ given. given.items ≡ bytes) (λ e. e ≡ AsmError.OutOfMemory) }
    // Else a fault stands in the line that the error names, and in none before it.
    ensures fault { IfErr result (Explains text.now) }
{
    let insns = read_lines(alloc, text)?;
    let mut bytes = vec![in alloc; 0u8; 8 * insns.len()]?;
    encode_into(&insns, &mut bytes);
    Ok(bytes)
}
