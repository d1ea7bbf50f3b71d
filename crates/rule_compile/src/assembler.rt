//! Code for a filter, written from its last instruction to its first.
//!
//! The jumps of a filter go forward. So where a jump goes to is there already when the jump is
//! written, and how many instructions it skips is known.
ghost use Rattle.std.specs.Prelude.{◌≡◌, ℕ, List, ◌+◌, ◌≤◌, ◌<◌, ◌↔◌, [], ◌∷◌, None, Some, length, slice_get, slice_index, ◌/◌, IfOk, IfSome, IsErrOf, IsTrue, OnOk};
ghost use Rattle.call_record.specs.Words.{IsRecord};
ghost use Rattle.rule_compile.specs.inner.Emitted.{AreFine, IsFine};
ghost use Rattle.rule_compile.specs.inner.Left.{IsOffset};
ghost use Rattle.rule_compile.specs.Steady.{Held, IsSteady, Whole};
ghost use Rattle.rule_compile.specs.inner.Runs.{gives_from, runs};
ghost use Rattle.rule_compile.specs.inner.Steadily.{IsAlwaysSteady, IsSteadyAt};
ghost use Rattle.bpf_insn.specs.declared.code.Operation.TheVariants.{Compute, Jump, LoadWord};
ghost use Rattle.bpf_insn.specs.declared.code.Arithmetic.TheVariants.{And};
ghost use Rattle.bpf_insn.specs.declared.code.Operand.TheVariants.{K};
ghost use Rattle.rule_compile.specs.inner.Code.{Grows, HasExits, IsIn, IsStart, IsTarget, insn_of, position};
ghost use Rattle.rule_compile.specs.inner.Goes.{Branches, JumpsTo, Reaches};

use crate::label::{Exits, Label, Target};
use bpf_insn::{Arithmetic, Insn, Operand, Operation, Test};
use call_record::Word;
use std::alloc::{AllocError, Global};
use std::marker::Model;

/// How many instructions a conditional jump skips at most.
const FARTHEST: usize = 255;

/// The code so far.
#[derive(Drop)]
pub(crate) struct Assembler {
    /// The instructions, the last one first.
    backwards: Vec<Insn>,
}

impl Model for Assembler {
    ghost use Rattle.std.specs.Prelude.{List, reverse};
    ghost use Rattle.bpf_insn.specs.declared.instruction.Insn.{Insn};
    ghost use Rattle.rule_compile.specs.inner.Emitted.{AreFine};

    ghost Value = { List Insn };

    ghost view = { λ code. reverse code.backwards.items };

    ghost invariant = { λ code. AreFine (reverse code.backwards.items) };
}

// An instruction that is no conditional jump.
fn insn(operation: Operation, k: u32) -> Insn
    ensures { result ≡ insn_of operation k }
{
    Insn {
        code: operation.code(),
        jt: 0,
        jf: 0,
        k,
    }
}

impl Assembler {
    /// No code.
    pub(crate) fn new(alloc: Global) -> Self
        ensures { result ≡ [] }
    {
        Assembler {
            backwards: Vec::new(alloc),
        }
    }

    // Writes an instruction in front of the code.
    fn write(&mut self, insn: Insn) -> Result<Label, AllocError>
        requires { IsFine insn (length self.old) }
        ensures written { OnOk result (self.new ≡ insn ∷ self.old) }
        ensures start { IfOk result (IsStart self.new) }
    {
        self.backwards.push(insn)?;
        Ok(Label {
            to_end: self.backwards.len(),
        })
    }

    // Writes a jump over so many instructions. Where they are more than 2^32 - 1, which take 32 GiB, no memory is said to be
    // left.
    fn jump(&mut self, skipped: usize) -> Result<Label, AllocError>
        requires { skipped < length self.old }
        ensures written { OnOk result (self.new ≡ insn_of Jump skipped ∷ self.old) }
        ensures start { IfOk result (IsStart self.new) }
    {
        let Ok(skipped) = u32::try_from(skipped) else {
            return Err(AllocError);
        };
        self.write(insn(Operation::Jump, skipped))
    }

    /// Loads the word at an offset of the record, and goes on at the code so far.
    pub(crate) fn load(&mut self, offset: u32) -> Result<Label, AllocError>
        requires some { 1 ≤ length self.old }
        requires offset { IsOffset offset }
        ensures written { OnOk result (self.new ≡ insn_of LoadWord offset ∷ self.old) }
        ensures start { IfOk result (IsStart self.new) }
    {
        self.write(insn(Operation::LoadWord, offset))
    }

    /// Keeps the bits of a mask in the word that is loaded.
    pub(crate) fn mask(&mut self, mask: u32) -> Result<Label, AllocError>
        requires { 1 ≤ length self.old }
        ensures written { OnOk result (self.new ≡ insn_of (Compute And K) mask ∷ self.old) }
        ensures start { IfOk result (IsStart self.new) }
    {
        let and = Operation::Compute(Arithmetic::And, Operand::K);
        self.write(insn(and, mask))
    }

    // How many instructions a jump skips that is written next and goes to the label.
    fn distance(&self, to: Label) -> usize
        requires { IsIn self.now to }
        ensures skipped { result + to.to_end ≡ length self.now }
    {
        self.backwards.len() - to.to_end
    }

    // The place of an instruction, where the code has it.
    fn find(&self, insn: Insn) -> Option<Label>
        ensures placed { IfSome result (IsIn self.now) }
        ensures found { IfSome result (λ place. slice_get self.now (position self.now place) ≡ Some insn) }
    {
        for (after, other) in self.backwards.iter().enumerate() {
            if *other == insn {
                return Some(Label { to_end: after + 1 });
            }
        }
        None
    }

    // A jump to the label which a conditional jump reaches that is written next, even after one
    // more instruction.
    fn find_jump(&self, to: Label) -> Option<Label>
        requires { IsIn self.now to }
        ensures placed { IfSome result (IsIn self.now) }
        ensures near { IfSome result (λ place. length self.now < place.to_end + FARTHEST) }
        ensures found { IfSome result (JumpsTo self.now to) }
    {
        let len = self.backwards.len();
        for after in (len - (FARTHEST - 1).min(len))..len {
            let Insn {
                code,
                jt: _,
                jf: _,
                k,
            } = self.backwards[after];
            if code == Operation::Jump.code() && to.to_end + k as usize == after {
                return Some(Label { to_end: after + 1 });
            }
        }
        None
    }

    // The label, or where it is far from here, that of a jump to it. A conditional jump that is
    // written next reaches it, even after one more instruction.
    fn near(&mut self, to: Label) -> Result<Label, AllocError>
        requires { IsIn self.old to }
        ensures reached { IfOk result (Reaches self.old self.new (Target.Place to)) }
    {
        let skipped = self.distance(to);
        if skipped < FARTHEST {
            return Ok(to);
        }
        match self.find_jump(to) {
            Some(jump) => Ok(jump),
            None => self.jump(skipped),
        }
    }

    /// The one return of the verdict, or where it is far from here, that of a jump to it, as `near`.
    pub(crate) fn near_return(&mut self, word: Word) -> Result<Label, AllocError>
        ensures reached { IfOk result (Reaches self.old self.new (Target.Return word)) }
    {
        let ending = insn(Operation::ReturnK, word.0);
        match self.find(ending) {
            Some(place) => self.near(place),
            None => self.write(ending),
        }
    }

    /// Has the code begin at the place: by a jump to it, where something else stands in front of it.
    pub(crate) fn begin_at(&mut self, to: Label) -> Result<(), AllocError>
        requires { IsIn self.old to }
        ensures grows { OnOk result (Grows self.old self.new) }
        ensures runs { OnOk result ((a : ℕ) (r : List ℕ) → gives_from self.new 0 a r ≡ gives_from self.old (position self.old to) a r) }
        ensures steady { OnOk result ((h : Held) → IsSteady self.old (position self.old to) h → IsSteady self.new 0 h) }
        ensures same { to.to_end ≡ length self.old → OnOk result (self.new ≡ self.old) }
    {
        let skipped = self.distance(to);
        if skipped == 0 {
            return Ok(());
        }
        self.jump(skipped)?;
        Ok(())
    }

    // Where to go on at the target, as `near`.
    fn near_target(&mut self, to: Target) -> Result<Label, AllocError>
        requires { IsTarget self.old to }
        ensures reached { IfOk result (Reaches self.old self.new to) }
    {
        match to {
            Target::Place(place) => self.near(place),
            Target::Return(word) => self.near_return(word),
        }
    }

    /// Goes on by how the word that is loaded compares with a number.
    pub(crate) fn branch(&mut self, test: Test, k: u32, exits: Exits) -> Result<Label, AllocError>
        requires { HasExits self.old exits }
        ensures start { IfOk result (IsStart self.new) }
        ensures written { OnOk result (Branches self.old self.new test k exits) }
    {
        let no = self.near_target(exits.no)?;
        let yes = self.near_target(exits.yes)?;
        let jump = Insn {
            code: Operation::Branch(test, Operand::K).code(),
            jt: self.distance(yes) as u8,
            jf: self.distance(no) as u8,
            k,
        };
        self.write(jump)
    }

    // Whether the instruction at a place loads this word, and is not the last.
    fn is_load(&self, place: Label, loaded: u32) -> bool
        requires { IsIn self.now place }
        ensures { IsTrue result → (2 ≤ place.to_end) × (slice_get self.now (position self.now place) ≡ Some (insn_of LoadWord loaded)) }
    {
        if place.to_end < 2 {
            return false;
        }
        self.backwards[place.to_end - 1] == insn(Operation::LoadWord, loaded)
    }

    /// The target, or the place behind its first instruction where this loads a word that is loaded
    /// already.
    pub(crate) fn past_load(&self, to: Target, loaded: u32) -> Target
        requires { IsTarget self.now to }
        ensures placed { IsTarget self.now result }
        ensures runs { (a : ℕ) (r : List ℕ) → IsRecord r → IsOffset loaded → a ≡ slice_index r (loaded / 4) → runs self.now result a r ≡ runs self.now to a r }
        ensures steady { IsAlwaysSteady self.now to → IsSteadyAt self.now result Whole }
    {
        match to {
            Target::Place(place) => {
                if self.is_load(place, loaded) {
                    return Target::Place(Label {
                        to_end: place.to_end - 1,
                    });
                }
                to
            }
            Target::Return(_) => to,
        }
    }

    /// The instructions, the first one first.
    pub(crate) fn into_insns(self) -> Vec<Insn>
        ensures code { result.items ≡ self }
        ensures fine { AreFine self }
    {
        let Assembler {
            backwards: mut insns,
        } = self;
        insns.reverse();
        insns
    }
}
