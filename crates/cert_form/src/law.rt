//! What holds of all certificates.
ghost use Rattle.cert_form.specs.Faults.{NoneSpelledIsFaulty, OneSpelling};

/// No bytes are a certificate and have a fault as well.
pub fn certificates_have_no_fault()
    ensures { NoneSpelledIsFaulty }
{}

/// Bytes spell one list of nodes at most.
pub fn one_spelling()
    ensures { OneSpelling }
{}
