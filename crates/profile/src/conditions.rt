//! Conditions on one argument of a call.
ghost use Rattle.std.specs.Prelude.{◌≡◌, ◌<◌, bit_and};
ghost use Rattle.profile.specs.Operator.{mask_of};
ghost use Rattle.profile.specs.declared.conditions.Op.TheVariants.{Eq};

/// How an argument is compared, as an unsigned number of 64 bits (OCI Runtime Specification,
/// config-linux, Seccomp, `op`).
#[derive(Clone, Copy, Debug, PartialEq, Eq)]
pub enum Op {
    Ne,
    Lt,
    Le,
    Eq,
    Ge,
    Gt,
    MaskedEq,
}

/// A condition on the argument at `index`, of 0 to 5.
///
/// Under [`Op::MaskedEq`] the bits of the argument under the mask `value` are those of `datum`,
/// which has no other bits. Any other operator compares the argument with `value`, and `datum` is 0.
#[derive(Clone, Copy, Debug, PartialEq, Eq)]
pub struct Cond {
    pub index: u8,
    pub op: Op,
    pub value: u64,
    pub datum: u64,
    pub ghost in_range: { index < 6 },
    pub ghost no_stray: { bit_and datum (mask_of op value) ≡ datum },
}

impl Cond {
    ghost use Rattle.std.specs.Prelude.{◌↔◌, IsTrue, IsSome, IfSome};
    ghost use Rattle.profile.specs.Condition.{IsCondition, Meets};

    /// The condition of these parts, or `None` where the index is above 5 or the datum has a stray
    /// bit.
    pub fn new(index: u8, op: Op, value: u64, datum: u64) -> Option<Cond>
        ensures made { IsSome result ↔ IsCondition index op value datum }
        ensures index_is { IfSome result (λ cond. cond.index ≡ index) }
        ensures op_is { IfSome result (λ cond. cond.op ≡ op) }
        ensures value_is { IfSome result (λ cond. cond.value ≡ value) }
        ensures datum_is { IfSome result (λ cond. cond.datum ≡ datum) }
    {
        if index < 6 && datum & op.mask(value) == datum {
            Some(Cond {
                index,
                op,
                value,
                datum,
            })
        } else {
            None
        }
    }

    /// Whether the condition holds of a number.
    pub fn holds(&self, argument: u64) -> bool
        ensures { IsTrue result ↔ Meets self.now argument }
    {
        match self.op {
            Op::Ne => argument != self.value,
            Op::Lt => argument < self.value,
            Op::Le => argument <= self.value,
            Op::Eq => argument == self.value,
            Op::Ge => argument >= self.value,
            Op::Gt => argument > self.value,
            Op::MaskedEq => argument & self.value == self.datum,
        }
    }
}

impl Op {
    /// The bits that a condition with this operator and value names: those of the mask.
    pub fn mask(self, value: u64) -> u64
        ensures { result ≡ mask_of self value }
    {
        match self {
            Op::MaskedEq => value,
            _ => 0,
        }
    }
}

impl Default for Cond {
    ghost is_default = { λ cond. (cond.index ≡ 0) × (cond.op ≡ Eq) × (cond.value ≡ 0) × (cond.datum ≡ 0) };

    /// Argument 0 is 0.
    fn default() -> Cond {
        Cond {
            index: 0,
            op: Op::Eq,
            value: 0,
            datum: 0,
        }
    }
}
