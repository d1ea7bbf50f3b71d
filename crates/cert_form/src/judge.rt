//! Whether the parts of a certificate are sound where they lie. Each field is judged as soon as it is whole.
ghost use Rattle.std.specs.Prelude.{◌≡◌, ◌≤◌, ◌+◌, ◌↔◌, ◌⊎◌, IsTrue, OnOk, IfErr, length, slice_index};
ghost use Rattle.cert_form.specs.Faults.{IsBadValue, IsBadLiteral, IsBadClaim, IsBadTail, HasTag, SaysMet, SaysOut};
ghost use Rattle.cert_form.specs.Reading.{tail_length};
ghost use Rattle.cert_form.specs.inner.Standing.{Fails, IsValueThere, IsLiteralThere, IsClaimThere, IsTailThere};

use crate::fault::FormError;
use crate::part::read_long;

pub(crate) fn judge_value(bytes: &[u8], at: usize) -> Result<(), FormError>
    requires { at ≤ length bytes.now }
    ensures sound { OnOk result (IsValueThere bytes.now at) }
    ensures fault { IfErr result (λ e. Fails e bytes.now (at + 6) (IsBadValue bytes.now at)) }
{
    if at >= bytes.len() {
        return Err(FormError::Truncated);
    }
    let tag = bytes[at];
    if tag > 2 {
        return Err(FormError::BadNode);
    }
    if at + 1 >= bytes.len() {
        return Err(FormError::Truncated);
    }
    let word = bytes[at + 1];
    if word > 15 {
        return Err(FormError::BadNode);
    }
    if tag != 2 && word != 0 {
        return Err(FormError::BadNode);
    }
    if at + 6 > bytes.len() {
        return Err(FormError::Truncated);
    }
    if tag == 0 && read_long(bytes, at + 2) != 0 {
        return Err(FormError::BadNode);
    }
    Ok(())
}

pub(crate) fn judge_literal(bytes: &[u8], at: usize) -> Result<(), FormError>
    requires { at ≤ length bytes.now }
    ensures sound { OnOk result (IsLiteralThere bytes.now at) }
    ensures fault { IfErr result (λ e. Fails e bytes.now (at + 10) (IsBadLiteral bytes.now at)) }
{
    if at >= bytes.len() {
        return Err(FormError::Truncated);
    }
    let tag = bytes[at];
    if tag == 0 || tag > 3 {
        return Err(FormError::BadNode);
    }
    if at + 1 >= bytes.len() {
        return Err(FormError::Truncated);
    }
    if bytes[at + 1] > 15 {
        return Err(FormError::BadNode);
    }
    if at + 10 > bytes.len() {
        return Err(FormError::Truncated);
    }
    let datum = read_long(bytes, at + 6);
    if tag != 1 && datum & read_long(bytes, at + 2) != datum {
        return Err(FormError::BadNode);
    }
    Ok(())
}

// Whether what an entry of form 4 states has this tag.
fn has_tag(bytes: &[u8], at: usize, tag: u8) -> bool
    requires { 8 ≤ length bytes.now }
    ensures { IsTrue result ↔ HasTag bytes.now at tag }
{
    if at >= bytes.len() {
        return false;
    }
    if read_long(bytes, 4) != 4 {
        return false;
    }
    bytes[at] == tag
}

// The field that is not used where an entry speaks of a rule, and that all ten bytes are there.
fn judge_unused_word(bytes: &[u8], at: usize) -> Result<(), FormError>
    requires { SaysOut bytes.now at ⊎ SaysMet bytes.now at }
    ensures none { OnOk result (slice_index bytes.now (at + 1) ≡ 0) }
    ensures room { OnOk result (at + 10 ≤ length bytes.now) }
    ensures fault { IfErr result (λ e. Fails e bytes.now (at + 10) (IsBadClaim bytes.now at)) }
{
    if at + 1 >= bytes.len() {
        return Err(FormError::Truncated);
    }
    if bytes[at + 1] != 0 {
        return Err(FormError::BadNode);
    }
    if at + 10 > bytes.len() {
        return Err(FormError::Truncated);
    }
    Ok(())
}

// That a rule is out: the place of the rule, and fields that are not used.
fn judge_out(bytes: &[u8], at: usize) -> Result<(), FormError>
    requires { SaysOut bytes.now at }
    ensures sound { OnOk result (IsClaimThere bytes.now at) }
    ensures fault { IfErr result (λ e. Fails e bytes.now (at + 10) (IsBadClaim bytes.now at)) }
{
    judge_unused_word(bytes, at)?;
    if read_long(bytes, at + 6) != 0 {
        return Err(FormError::BadNode);
    }
    Ok(())
}

// That a condition is met: the place of its rule and its own, and a field that is not used.
fn judge_met(bytes: &[u8], at: usize) -> Result<(), FormError>
    requires { SaysMet bytes.now at }
    ensures sound { OnOk result (IsClaimThere bytes.now at) }
    ensures fault { IfErr result (λ e. Fails e bytes.now (at + 10) (IsBadClaim bytes.now at)) }
{
    judge_unused_word(bytes, at)?;
    Ok(())
}

// What an entry states: a literal, and in form 4 also that a rule is out or that a condition is met.
pub(crate) fn judge_claim(bytes: &[u8], at: usize) -> Result<(), FormError>
    requires head { 8 ≤ length bytes.now }
    requires there { at ≤ length bytes.now }
    ensures sound { OnOk result (IsClaimThere bytes.now at) }
    ensures fault { IfErr result (λ e. Fails e bytes.now (at + 10) (IsBadClaim bytes.now at)) }
{
    if has_tag(bytes, at, 4) {
        return judge_out(bytes, at);
    }
    if has_tag(bytes, at, 5) {
        return judge_met(bytes, at);
    }
    judge_literal(bytes, at)
}

// How long the tail of a node of a kind is.
pub(crate) fn tail_size(kind: u8) -> usize
    ensures { result ≡ tail_length kind }
{
    match kind {
        0 => 8,
        1 => 28,
        _ => 0,
    }
}

// What follows from a node of a kind, at its end.
pub(crate) fn judge_tail(bytes: &[u8], kind: u8, at: usize) -> Result<(), FormError>
    requires there { at ≤ length bytes.now }
    requires kind { kind ≤ 3 }
    ensures sound { OnOk result (IsTailThere bytes.now kind at) }
    ensures fault { IfErr result (λ e. Fails e bytes.now (at + tail_length kind) (IsBadTail bytes.now kind at)) }
{
    if kind > 1 {
        return Ok(());
    }
    if kind == 1 {
        judge_literal(bytes, at)?;
        judge_literal(bytes, at + 10)?;
        if at + 28 > bytes.len() {
            return Err(FormError::Truncated);
        }
        return Ok(());
    }
    if at + 8 > bytes.len() {
        return Err(FormError::Truncated);
    }
    Ok(())
}
