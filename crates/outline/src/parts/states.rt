//! What is known, as a state of which can be asked what follows.

use cert_state::{AVal, Listed, Lit, Regs};

/// Nothing is known of registers and scratch words.
pub const NO_REGS: Regs = Regs {
    a: AVal::Unknown,
    x: AVal::Unknown,
    scratch: [AVal::Unknown; 16],
};

/// Literals as a state.
pub fn listed(lits: &[Lit]) -> Listed<'_> {
    Listed {
        regs: NO_REGS,
        lits,
        more: None,
    }
}

// How many comparisons cost what it costs to fill the room in which facts are gathered.
const MANY: usize = 1024;

/// Whether so many questions about so many literals are better asked of facts that are gathered first.
pub fn are_many(questions: usize, literals: usize) -> bool {
    questions.saturating_mul(literals) >= MANY
}
