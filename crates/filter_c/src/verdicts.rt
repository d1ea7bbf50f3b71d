//! The verdict of a filter on a call record.
ghost use Rattle.std.specs.Prelude.{◌≡◌, ◌≤◌, ◌⊎◌};
ghost use Rattle.maker.specs.Answer.{IsAnswer};
ghost use Rattle.maker.specs.declared.verdict.Answer.TheVariants as answer;
ghost use Rattle.bpf_insn.specs.declared.fault.ViewError.{ViewError};
ghost use Rattle.kernel_check.specs.declared.fault.Refused.{Refused};

use crate::status::{DONE, KERNEL_REFUSES, NO_PROGRAM, NO_RECORD};
use maker::{Answer, answer_to};

/// Writes the verdict of a filter on a call record of 64 bytes, and returns 0. Returns 12 if the record has another length.
/// Returns 13 if the filter's bytes are no program, and 14 if the kernel refuses the filter.
#[unsafe(no_mangle)]
pub extern "C" fn ccell_verdict(filter: &[u8], rec: &[u8], verdict: &mut u32) -> u32
    ensures done { result ≡ 0 → IsAnswer filter.now rec.now (answer.Verdict verdict.new) }
    ensures length { result ≡ 12 → IsAnswer filter.now rec.now answer.NoRecord }
    ensures program { result ≡ 13 → (e : ViewError) × IsAnswer filter.now rec.now (answer.NoProgram e) }
    ensures kernel { result ≡ 14 → (e : Refused) × IsAnswer filter.now rec.now (answer.Refusal e) }
    ensures unwritten { 2 ≤ result → verdict.new ≡ verdict.old }
    ensures statuses { (result ≡ 0) ⊎ ((result ≡ 12) ⊎ ((result ≡ 13) ⊎ (result ≡ 14))) }
{
    match answer_to(filter, rec) {
        Answer::Verdict(word) => {
            *verdict = word.0;
            DONE
        }
        Answer::NoRecord => NO_RECORD,
        Answer::NoProgram(_) => NO_PROGRAM,
        Answer::Refusal(_) => KERNEL_REFUSES,
    }
}
