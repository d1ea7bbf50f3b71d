//! The literals of a chain, as a state that the checker's questions are asked of.
ghost use Rattle.std.specs.Prelude.{◌≡◌, ◌≤◌, ◌↔◌, Contains, IsTrue, length};
ghost use Rattle.cert_form.specs.Nodes.{literals};
ghost use Rattle.certify.specs.Chains.{AreEarlier};

use cert_state::{AVal, Lit, Regs, State};

/// Entries, and the number of the one that a chain begins with, or 0 for a chain of no literals. Of the registers nothing is
/// said.
#[derive(Clone, Copy)]
pub struct Chain<'a> {
    pub entries: &'a [(u32, Lit)],
    pub number: u32,
    pub ghost earlier: { AreEarlier entries.now },
    pub ghost few: { length entries.now ≤ 65536 },
}

impl State for Chain<'_> {
    ghost use Rattle.std.specs.Prelude.{length, replicate};
    ghost use Rattle.cert_state.specs.declared.literal.AVal.TheVariants.{Unknown};
    ghost use Rattle.cert_form.specs.Nodes.{literals};

    ghost regs = { λ _. record { a = Unknown; x = Unknown; scratch = replicate 16 Unknown } };

    ghost known = { λ c. literals c.entries.now c.number };

    ghost rest = { λ c at. literals c.entries.now at };

    ghost last = { λ c. 0xffffffff };

    fn regs(&self) -> Regs {
        Regs {
            a: AVal::Unknown,
            x: AVal::Unknown,
            scratch: [AVal::Unknown; 16],
        }
    }

    fn start(&self) -> usize {
        self.number as usize
    }

    fn next(&self, at: usize) -> Option<(Lit, usize)> {
        if at == 0 {
            return None;
        }
        if at > self.entries.len() {
            return None;
        }
        let (parent, literal) = self.entries[at - 1];
        Some((literal, parent as usize))
    }
}

impl Chain<'_> {
    /// Whether a literal is stated.
    pub(crate) fn states(&self, wanted: Lit) -> bool
        ensures { IsTrue result ↔ Contains (literals self.now.entries.now self.now.number) wanted }
    {
        let mut at = self.start();
        while let Some((literal, next)) = self.next(at) {
            if literal == wanted {
                return true;
            }
            at = next;
        }
        false
    }
}
