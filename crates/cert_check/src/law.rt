//! What holds of every certificate that breaks no rule, and of all that is known in full.
ghost use Rattle.cert_check.specs.Right.{ValidIsRight};
ghost use Rattle.cert_check.specs.Settled.{StatedIsSettled};
ghost use Rattle.cert_check.specs.Valid.{ValidIsKept};

/// A valid certificate of an accepted program makes the program right for a clear profile.
pub fn valid_is_right()
    ensures { ValidIsRight }
{}

/// A certificate whose nodes keep each rule breaks none that the checker looks for, beside a filter that the kernel accepts.
pub fn valid_is_kept()
    ensures { ValidIsKept }
{}

/// Suppose that each word of a record is stated, and that all that is known holds of it. Then a return of the verdict that the
/// profile says of the record agrees by what is known. Nothing has to be said of its rules.
pub fn stated_is_settled()
    ensures { StatedIsSettled }
{}
