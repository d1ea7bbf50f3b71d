//! Laws of what is judged.
ghost use Rattle.maker.specs.Answer.{OneAnswer};
ghost use Rattle.maker.specs.Certified.{EvidenceExcludes};
ghost use Rattle.maker.specs.Finding.{FindingsExclude};
ghost use Rattle.maker.specs.Plain.{BundlesArePlain};

use kernel_check::one_refusal;
use profile_json::{meaning_is_one, meaning_is_unbroken};

/// A filter's and a record's bytes have one answer at most.
pub fn one_answer()
    ensures { OneAnswer }
{
    one_refusal();
}

/// Of the bytes of a bundle, a filter and a certificate only one stands: a yes, a no, or a refusal of the bundle.
pub fn findings_exclude()
    ensures { FindingsExclude }
{
    meaning_is_unbroken();
    meaning_is_one();
}

/// No filter has both a certificate with which the checker says yes beside a bundle and a call record that refutes it.
pub fn evidence_excludes()
    ensures { EvidenceExcludes }
{
    meaning_is_one();
}

/// Which bundles mean plain profiles. The first are those without conditions, for machines of one of the chosen lists. The
/// others are those of all of Linux without conditions, for calls with small numbers. There the machines must have two tokens
/// at most, and x32 must stand beside x86-64.
pub fn bundles_are_plain()
    ensures { BundlesArePlain }
{}
