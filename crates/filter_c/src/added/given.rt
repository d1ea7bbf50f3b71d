//! Rules and conditions as C has them.

/// A condition on an argument: its place, of 0 to 5, the number of an operator, and what is compared with. Under a mask `value`
/// is the mask, and `datum` the bits under it; any other operator compares with `value`, and `datum` is 0.
#[repr(C)]
#[derive(Clone, Copy, Debug)]
pub struct AddedCondition {
    pub argument: u32,
    pub operator: u32,
    pub value: u64,
    pub datum: u64,
}

/// A rule for one call of one machine: what becomes of a call that meets the first `count` conditions.
#[repr(C)]
#[derive(Clone, Copy, Debug)]
pub struct AddedRule {
    pub machine: u32,
    /// The number of the call.
    pub number: u32,
    /// The verdict: an action in the high half, data in the low half.
    pub action: u32,
    pub count: u32,
    pub conditions: [AddedCondition; 6],
}
