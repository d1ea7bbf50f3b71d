//! From a line to its instruction.
ghost use Rattle.std.specs.Prelude.{◌≡◌};
ghost use Rattle.bpf_asm.specs.inner.Mnemonics.{mnemonic_at};
ghost use Rattle.bpf_asm.specs.inner.Reading.{fields_of, insn_of, judged, line_at, with_fields};

use crate::arguments::Arguments::{Four, Nothing, One, Three};
use crate::arguments::Part::{
    Address, Constant, Decimal, Hexadecimal, RegisterA, RegisterX, Scratch,
};
use crate::arguments::{Arguments, read_arguments};
use crate::fault::LineFault;
use crate::listing::form;
use crate::mnemonic::Mnemonic;
use bpf_insn::{Insn, Operand, Operation};
use texts::split;

/// The fields of an instruction, each with its number where a line gives it well.
#[derive(Clone, Copy)]
pub(crate) struct Fields {
    code: Option<u64>,
    jt: Option<u64>,
    jf: Option<u64>,
    k: Option<u64>,
}

impl Fields {
    ghost use Rattle.bpf_asm.specs.inner.Reading.{branch_fields, plain_fields};

    // The fields of an operation that has no targets.
    fn plain(operation: Operation, k: Option<u64>) -> Fields
        ensures { result ≡ plain_fields operation k }
    {
        Fields::branch(operation, k, Some(0), Some(0))
    }

    // The fields of an operation with targets.
    fn branch(operation: Operation, k: Option<u64>, jt: Option<u64>, jf: Option<u64>) -> Fields
        ensures { result ≡ branch_fields operation k jt jf }
    {
        let code = Some(u64::from(operation.code()));
        Fields { code, jt, jf, k }
    }

    // The fields that a line gives, where what stands after its mnemonic has a shape of it.
    fn of(mnemonic: Mnemonic, arguments: Arguments) -> Option<Fields>
        ensures { result ≡ fields_of mnemonic arguments }
    {
        let fields = match (mnemonic, arguments) {
            (Mnemonic::Ld, One(Address(k))) => Fields::plain(Operation::LoadWord, k),
            (Mnemonic::Ld, One(Scratch(k))) => Fields::plain(Operation::LoadScratch, k),
            (Mnemonic::Ldx, One(Scratch(k))) => Fields::plain(Operation::LoadScratchX, k),
            (Mnemonic::St, One(Scratch(k))) => Fields::plain(Operation::Store, k),
            (Mnemonic::Stx, One(Scratch(k))) => Fields::plain(Operation::StoreX, k),
            (Mnemonic::Ld, One(Constant(k))) => Fields::plain(Operation::SetA, k),
            (Mnemonic::Ldx, One(Constant(k))) => Fields::plain(Operation::SetX, k),
            (Mnemonic::Ret, One(Constant(k))) => Fields::plain(Operation::ReturnK, k),
            (Mnemonic::Ret, One(RegisterA)) => Fields::plain(Operation::ReturnA, Some(0)),
            (Mnemonic::Ja, One(Decimal(k))) => Fields::plain(Operation::Jump, k),
            (Mnemonic::Branch(test), Three(Constant(k), Decimal(jt), Decimal(jf))) => {
                Fields::branch(Operation::Branch(test, Operand::K), k, jt, jf)
            }
            (Mnemonic::Branch(test), Three(RegisterX, Decimal(jt), Decimal(jf))) => {
                Fields::branch(Operation::Branch(test, Operand::X), Some(0), jt, jf)
            }
            (Mnemonic::Compute(arithmetic), One(Constant(k))) => {
                Fields::plain(Operation::Compute(arithmetic, Operand::K), k)
            }
            (Mnemonic::Compute(arithmetic), One(RegisterX)) => {
                Fields::plain(Operation::Compute(arithmetic, Operand::X), Some(0))
            }
            (Mnemonic::Lsh, One(Constant(k))) => Fields::plain(Operation::ShiftLeft, k),
            (Mnemonic::Rsh, One(Constant(k))) => Fields::plain(Operation::ShiftRight, k),
            (Mnemonic::Neg, Nothing) => Fields::plain(Operation::Negate, Some(0)),
            (Mnemonic::Tax, Nothing) => Fields::plain(Operation::CopyToX, Some(0)),
            (Mnemonic::Txa, Nothing) => Fields::plain(Operation::CopyToA, Some(0)),
            (Mnemonic::Raw, Four(Hexadecimal(code), Decimal(jt), Decimal(jf), Hexadecimal(k))) => {
                Fields { code, jt, jf, k }
            }
            _ => return None,
        };
        Some(fields)
    }

    // The instruction with these fields, where each number is good and within its width.
    fn insn(self) -> Option<Insn>
        ensures { result ≡ insn_of self }
    {
        Some(Insn {
            code: u16::try_from(self.code?).ok()?,
            jt: u8::try_from(self.jt?).ok()?,
            jf: u8::try_from(self.jf?).ok()?,
            k: u32::try_from(self.k?).ok()?,
        })
    }
}

// The instruction that a mnemonic and what stands after it are of, or what is wrong with them.
fn read_fields(word: &str, arguments: Option<Arguments>) -> Result<Insn, LineFault>
    ensures { result ≡ judged (with_fields (mnemonic_at word.now) arguments) }
{
    let Some(mnemonic) = Mnemonic::read(word) else {
        return Err(LineFault::UnknownWord);
    };
    let Some(arguments) = arguments else {
        return Err(LineFault::BadLine);
    };
    let Some(fields) = Fields::of(mnemonic, arguments) else {
        return Err(LineFault::BadLine);
    };
    let Some(insn) = fields.insn() else {
        return Err(LineFault::BadNumber);
    };
    if mnemonic.is_raw() && form(insn).is_some() {
        return Err(LineFault::BadLine);
    }
    Ok(insn)
}

/// The instruction that a line is of, without its line feed, or what is wrong with the line.
#[tactic(auto, unfolding(crate::specs::inner::Reading::line_at))]
pub(crate) fn read_line(line: &str) -> Result<Insn, LineFault>
    ensures { result ≡ line_at line.now }
{
    match split(line, ' ') {
        None => read_fields(line, Some(Arguments::Nothing)),
        Some((word, rest)) => read_fields(word, read_arguments(rest)),
    }
}
