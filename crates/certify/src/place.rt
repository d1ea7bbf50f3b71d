//! Where a path stands.
ghost use Rattle.std.specs.Prelude.{◌≡◌, Some};
ghost use Rattle.bpf_insn.specs.Causes.{IsPlain};
ghost use Rattle.cert_state.specs.Transfer.{transfer as regs_after};
ghost use Rattle.cert_state.specs.Sharp.{sharp_fact as fact_of};
ghost use Rattle.cert_form.specs.Nodes.{literals};

use crate::chain::Chain;
use bpf_insn::Insn;
use cert_state::{AVal, Listed, Lit, Regs, State, sharp_fact, transfer};

/// Where a path stands: at a position, with this in the registers. What is known of the record is what a chain says, of so many
/// literals.
#[derive(Clone, Copy)]
pub(crate) struct Place {
    pub(crate) pc: u16,
    pub(crate) regs: Regs,
    pub(crate) chain: u32,
    pub(crate) depth: u32,
}

/// Where a path goes on: at a position, with this in the registers, and with what the way there told.
#[derive(Clone, Copy)]
pub(crate) struct Next {
    pub(crate) pc: u16,
    pub(crate) regs: Regs,
    pub(crate) learned: Option<Lit>,
}

/// What is known at a place of the record, and of the registers.
#[derive(Clone, Copy)]
pub(crate) struct Here<'a> {
    pub(crate) regs: Regs,
    pub(crate) known: Chain<'a>,
}

impl State for Here<'_> {
    ghost use Rattle.cert_form.specs.Nodes.{literals};

    ghost regs = { λ h. h.regs };

    ghost known = { λ h. literals h.known.entries.now h.known.number };

    ghost rest = { λ h at. literals h.known.entries.now at };

    ghost last = { λ h. 0xffffffff };

    fn regs(&self) -> Regs {
        self.regs
    }

    fn start(&self) -> usize {
        self.known.start()
    }

    fn next(&self, at: usize) -> Option<(Lit, usize)> {
        self.known.next(at)
    }
}

impl Place {
    /// Where each path begins.
    pub(crate) const FIRST: Place = Place {
        pc: 0,
        regs: Regs {
            a: AVal::Const(0),
            x: AVal::Const(0),
            scratch: [AVal::Unknown; 16],
        },
        chain: 0,
        depth: 0,
    };

    /// What is known of the registers after the instruction there.
    pub(crate) fn after(self, insn: &Insn) -> Regs
        requires { IsPlain insn.now }
        ensures { result ≡ regs_after self.regs insn.now }
    {
        let state = Listed {
            regs: self.regs,
            lits: &[],
            more: None,
        };
        transfer(&state, insn)
    }

    /// What is known where a comparison there came out so.
    pub(crate) fn fact(self, known: &Chain<'_>, insn: &Insn, taken: bool) -> Option<Lit>
        ensures { result ≡ fact_of (literals known.now.entries.now known.now.number) self.regs insn.now taken }
    {
        let here = Here {
            regs: self.regs,
            known: *known,
        };
        sharp_fact(&here, insn, taken)
    }

    /// This place, where a literal is known too.
    pub(crate) fn knowing(self, literal: Lit) -> Next
        ensures { result ≡ record { pc = self.pc; regs = self.regs; learned = Some literal } }
    {
        Next {
            pc: self.pc,
            regs: self.regs,
            learned: Some(literal),
        }
    }
}
