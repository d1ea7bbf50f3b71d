//! The one judgement: a filter's certificate, or a record on which it is wrong.
ghost use Rattle.std.specs.Prelude.{◌≡◌, ℕ, List, Err, IfErr, IfOk, IfSome, None};
ghost use Rattle.call_record.specs.Record.{words};
ghost use Rattle.kernel_check.specs.Lent.{accepted_insns};
ghost use Rattle.cert_check.specs.Right.{IsRight};
ghost use Rattle.cert_check.specs.Valid.{IsValidCertificate};
ghost use Rattle.certify.specs.Error.{IsOfSize};
ghost use Rattle.certify.specs.Fault.{IsWrongOn, TellsWrong};
ghost use Rattle.maker.specs.evidence.Counterexample.{CertifiesShape, FindsCounterexample, IsCounterexample, IsEvidence, JudgesSteady};
ghost use Rattle.maker.specs.evidence.Counterexample.{JudgesTelling, ShapeLacksMemory, ShowsRight};

use crate::evidence::hand::Hand;
use crate::evidence::maker::are_plain;
use crate::evidence::own::{by_compilers_outline, by_its_order, by_same_outline};
use bpf_interp::verdict;
use call_record::{Record, Word};
use cert_check::{CheckError, check_accepted, valid_is_right};
use certify::{CertifyError, PathsError, by_paths};
use kernel_check::Accepted;
use profile::Profile;
use record_search::{find_beside_rules, find_record};
use rule_compile::{Planned, plan};
use std::alloc::{AllocError, Global};

/// A record, with the verdict that a filter gives it and the one that a profile says of it.
#[derive(Clone, Copy, Debug)]
pub struct Counterexample {
    pub call: Record,
    pub given: Word,
    pub said: Word,
}

/// What is found of a filter and a profile.
#[derive(Debug, Drop)]
pub enum Evidence {
    /// A certificate that the filter gives each record the verdict that the profile says.
    Certificate(Vec<u8>),
    /// A record on which the two differ.
    Refuting(Counterexample),
}

// The verdicts on a record, where they are unlike.
fn unlike(profile: &Profile, program: &Accepted<'_>, call: Record) -> Option<Counterexample>
    ensures found { IfSome result (IsCounterexample profile.now (accepted_insns program.now)) }
    ensures none { result ≡ None → IsWrongOn profile.now (accepted_insns program.now) (words call) → ⊥ }
{
    let given = verdict(program, &call);
    let said = profile.decide(&call);
    if given.0 == said.0 {
        return None;
    }
    Some(Counterexample { call, given, said })
}

// The verdicts on a record of a search, if it found one and they are unlike.
fn on_a_search(
    profile: &Profile,
    program: &Accepted<'_>,
    found: Result<Option<Record>, AllocError>,
) -> Result<Option<Counterexample>, CertifyError>
    ensures found { FindsCounterexample profile.now (accepted_insns program.now) result }
    ensures memory { IfErr result (λ e. e ≡ CertifyError.OutOfMemory) }
{
    match found {
        Ok(Some(call)) => Ok(unlike(profile, program, call)),
        Ok(None) => Ok(None),
        Err(_) => Err(CertifyError::OutOfMemory),
    }
}

// The record that is a counterexample to a filter, if the paths returned one. It is a record beside the rules, since a call of the tables
// says the most. Or else it is the one that the paths returned.
fn on_record(
    alloc: Global,
    profile: &Profile,
    program: &Accepted<'_>,
    pc: u32,
    call: Record,
) -> Result<Evidence, CertifyError>
    ensures evidence { IfOk result (IsEvidence profile.now (accepted_insns program.now)) }
    ensures sure { IsWrongOn profile.now (accepted_insns program.now) (words call) → IfErr result IsOfSize }
{
    let beside = find_beside_rules(alloc, profile, *program);
    match on_a_search(profile, program, beside) {
        Ok(Some(found)) => Ok(Evidence::Refuting(found)),
        Ok(None) => match unlike(profile, program, call) {
            Some(found) => Ok(Evidence::Refuting(found)),
            None => Err(CertifyError::Undecided(pc)),
        },
        Err(error) => Err(error),
    }
}

// The record that refutes a filter, if one is searched for and found, or else the reason why there is no certificate.
fn searched(
    alloc: Global,
    profile: &Profile,
    program: &Accepted<'_>,
    reason: CertifyError,
) -> Result<Evidence, CertifyError>
    ensures evidence { IfOk result (IsEvidence profile.now (accepted_insns program.now)) }
    ensures sure { IsOfSize reason → IfErr result IsOfSize }
{
    let record = find_record(alloc, profile, *program);
    match on_a_search(profile, program, record) {
        Ok(Some(found)) => Ok(Evidence::Refuting(found)),
        Ok(None) => Err(reason),
        Err(error) => Err(error),
    }
}

// The certificate that is at hand, if the checker says yes to it.
fn checked(
    alloc: Global,
    profile: &Profile,
    program: &Accepted<'_>,
    hand: Result<Hand, CertifyError>,
) -> Result<Option<Vec<u8>>, CertifyError>
    requires { IfErr hand (λ e. e ≡ CertifyError.OutOfMemory) }
    ensures valid { IfOk result (λ found. IfSome found (λ bytes. IsValidCertificate profile.now (accepted_insns program.now) bytes.items)) }
    ensures memory { IfErr result (λ e. e ≡ CertifyError.OutOfMemory) }
{
    let Hand::Certificate(bytes) = hand? else {
        return Ok(None);
    };
    match check_accepted(alloc, profile, program, &bytes) {
        Ok(()) => Ok(Some(bytes)),
        Err(CheckError::OutOfMemory) => Err(CertifyError::OutOfMemory),
        Err(_) => Ok(None),
    }
}

// The evidence where the outline of the compiler's filter gives none: by the order in which the filter itself asks for rules.
fn in_its_order(
    alloc: Global,
    profile: &Profile,
    program: &Accepted<'_>,
) -> Result<Evidence, CertifyError>
    ensures evidence { IfOk result (IsEvidence profile.now (accepted_insns program.now)) }
    ensures size { IfErr result IsOfSize }
{
    let hand = by_its_order(alloc, profile, *program);
    match checked(alloc, profile, program, hand) {
        Ok(Some(bytes)) => Ok(Evidence::Certificate(bytes)),
        Ok(None) => searched(alloc, profile, program, CertifyError::TooLarge),
        Err(error) => Err(error),
    }
}

// The evidence if the paths are too many to follow each. Long lists of numbers, as libseccomp's for x86-64 and x32, are followed by the
// outline of the compiler's filter.
fn of_many_paths(
    alloc: Global,
    profile: &Profile,
    program: &Accepted<'_>,
    own: Option<&Planned>,
) -> Result<Evidence, CertifyError>
    ensures evidence { IfOk result (IsEvidence profile.now (accepted_insns program.now)) }
    ensures size { IfErr result IsOfSize }
{
    let hand = by_compilers_outline(alloc, profile, *program, own);
    match checked(alloc, profile, program, hand) {
        Ok(Some(bytes)) => Ok(Evidence::Certificate(bytes)),
        Ok(None) => in_its_order(alloc, profile, program),
        Err(error) => Err(error),
    }
}

// The evidence where the paths told why no certificate follows each of them.
fn beside_paths(
    alloc: Global,
    profile: &Profile,
    program: &Accepted<'_>,
    own: Option<&Planned>,
    error: PathsError,
) -> Result<Evidence, CertifyError>
    ensures evidence { IfOk result (IsEvidence profile.now (accepted_insns program.now)) }
    ensures sure { TellsWrong profile.now (accepted_insns program.now) error → IfErr result IsOfSize }
    ensures memory { error ≡ PathsError.OutOfMemory → result ≡ Err CertifyError.OutOfMemory }
{
    match error {
        PathsError::Unlike(pc, call) => on_record(alloc, profile, program, pc, call),
        PathsError::Unsettled(pc) => {
            searched(alloc, profile, program, CertifyError::Undecided(pc))
        }
        PathsError::TooLarge => of_many_paths(alloc, profile, program, own),
        PathsError::OutOfMemory => Err(CertifyError::OutOfMemory),
    }
}

// The evidence that is met where each path of the filter is followed.
fn on_its_paths(
    alloc: Global,
    profile: &Profile,
    program: &Accepted<'_>,
    own: Option<&Planned>,
) -> Result<Evidence, CertifyError>
    ensures evidence { IfOk result (IsEvidence profile.now (accepted_insns program.now)) }
    ensures telling { JudgesTelling (accepted_insns program.now) result }
    ensures own { CertifiesShape profile.now (accepted_insns program.now) result }
    ensures never { ShapeLacksMemory profile.now (accepted_insns program.now) result }
{
    match by_paths(alloc, profile, program) {
        Ok(bytes) => Ok(Evidence::Certificate(bytes)),
        Err(error) => beside_paths(alloc, profile, program, own, error),
    }
}

// The evidence on a filter of a profile with conditions. The compiler's own outline is tried before its paths, where it is that filter's.
fn by_outline(
    alloc: Global,
    profile: &Profile,
    program: &Accepted<'_>,
) -> Result<Evidence, CertifyError>
    ensures evidence { IfOk result (IsEvidence profile.now (accepted_insns program.now)) }
    ensures telling { JudgesTelling (accepted_insns program.now) result }
{
    let Ok(own) = plan(alloc, profile) else {
        return Err(CertifyError::OutOfMemory);
    };
    let hand = by_same_outline(alloc, profile, *program, &own);
    match checked(alloc, profile, program, hand) {
        Ok(Some(bytes)) => Ok(Evidence::Certificate(bytes)),
        Ok(None) => on_its_paths(alloc, profile, program, Some(&own)),
        Err(error) => Err(error),
    }
}

// A filter with a valid certificate is right.
fn valid_shows(profile: &Profile, program: &Accepted<'_>)
    ensures { (cert : List ℕ) → IsValidCertificate profile.now (accepted_insns program.now) cert
        → IsRight profile.now (accepted_insns program.now) }
{
    valid_is_right();
    profile.rules();
    program.program();
}

/// The evidence on a filter. It is a certificate that the filter gives each call record the verdict that the profile says, to which the
/// checker says yes. Or it is a record on which filter and profile differ.
///
/// A filter that the compiler makes of a profile with conditions is certified by the compiler's outline. Of any other filter each path is
/// followed once, until it is certified, or a record is met on which it is wrong. Then a record beside the rules is returned in the place
/// of that one, if there is one. A call of the tables comes before all others. If the paths are too many, the certificate by the outline of
/// the compiler's own filter is tried. So is the one by the order in which the filter asks. Then, or where some comparison does not tell
/// all that it asks, a search may still find a record.
#[tactic(auto, using(crate::proofs::RightLaws::judged_of_telling, crate::proofs::RightLaws::shows_right))]
pub fn judge(
    alloc: Global,
    profile: &Profile,
    program: &Accepted<'_>,
) -> Result<Evidence, CertifyError>
    // What is found is so.
    ensures evidence { IfOk result (IsEvidence profile.now (accepted_insns program.now)) }
    // A filter with a certificate gives each record the profile's verdict, and no other.
    ensures right { ShowsRight profile.now (accepted_insns program.now) result }
    // A filter of which each comparison tells all that it asks is judged, unless the format or memory has no room. Each filter that
    // compares steadily is one.
    ensures telling { JudgesTelling (accepted_insns program.now) result }
    ensures sure { JudgesSteady (accepted_insns program.now) result }
    // A filter of the shape of a plain profile's is certified, unless memory is refused.
    ensures own { CertifiesShape profile.now (accepted_insns program.now) result }
    ensures never { ShapeLacksMemory profile.now (accepted_insns program.now) result }
{
    valid_shows(profile, program);
    if are_plain(profile.rules()) {
        return on_its_paths(alloc, profile, program, None);
    }
    by_outline(alloc, profile, program)
}
