//! Laws of the check.
ghost use Rattle.kernel_check.specs.Accepted.{AcceptedGive, OneRefusal};

/// A program has one refusal, and none where it is accepted.
pub fn one_refusal()
    ensures { OneRefusal }
{}

/// An accepted program gives a verdict on each record of sixteen words, and runs at most as many
/// instructions as it has.
pub fn accepted_programs_give_verdicts()
    ensures { AcceptedGive }
{}
