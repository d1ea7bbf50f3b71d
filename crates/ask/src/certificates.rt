//! Questions on certificates: `cert DIGITS` tells how many nodes one has, or its fault.

use crate::answers::Answers;
use crate::question::Question;
use cert_form::CertView;

/// Answers a question on certificates.
pub fn answer(out: &mut Answers, mut question: Question<'_>) {
    let bytes = out.bytes(question.part());
    match CertView::read(out.alloc, &bytes) {
        Ok(view) => out.tell(view.len()),
        Err(e) => out.tell(e),
    }
}
