//! Returns.
ghost use Rattle.std.specs.Prelude.{◌≡◌, ◌↔◌, IsTrue};
ghost use Rattle.bpf_insn.specs.Code.{operation_of};
ghost use Rattle.cert_form.specs.declared.node.Kind.TheVariants as kind;
ghost use Rattle.cert_form.specs.Views.{certificate_of, says};
ghost use Rattle.cert_check.specs.Agree.{Agrees};
ghost use Rattle.cert_check.specs.Rules.{verdict_by};
ghost use Rattle.cert_check.specs.Several.{ReturnAgrees, SaysOfEach};
ghost use Rattle.cert_check.specs.inner.Agreed.{AreAgreed};
ghost use Rattle.cert_check.specs.inner.Broken.{ReturnsAt};
ghost use Rattle.cert_check.specs.inner.Claimed.{mets_of, outs_of};
ghost use Rattle.cert_check.specs.inner.Marked.{IsClear};

use crate::agreed::Agreed;
use crate::claims::{
    FEW_RULES, Mets, Outs, SOME_RULES, has_no_met, has_none, mark_mets, mark_outs,
};
use crate::judging::Agreement;
use crate::scratch::Scratch;
use bpf_insn::{Insn, Operation};
use call_record::Word;
use cert_form::{Kind, NodeView};
use cert_state::{AVal, Facts};
use profile::{MAX_RULES, Profile};

// The verdict that a return gives, where it is known.
fn returned_by(insn: &Insn, node: &NodeView<'_>) -> Option<u32>
    ensures { result ≡ verdict_by (operation_of insn.now.code) (says node.now).regs insn.now }
{
    match insn.operation() {
        Some(Operation::ReturnK) => Some(insn.k),
        Some(Operation::ReturnA) => match node.a() {
            AVal::Const(word) => Some(word),
            AVal::Unknown | AVal::Masked(_, _) => None,
        },
        _ => None,
    }
}

// Whether the profile says a verdict of all that a node knows, of which these rules are out and these conditions met.
fn agrees_with(
    profile: &Profile,
    node: &NodeView<'_>,
    outs: Outs<'_, '_>,
    mets: Mets<'_, '_>,
    word: Word,
    scratch: &mut Scratch,
) -> bool
    requires outs { outs_of outs.node ≡ (says node.now).out }
    requires mets { mets_of mets.node ≡ (says node.now).met }
    ensures { let n = says node.now in IsTrue result ↔ Agrees profile.now n.out n.met n.known word }
{
    let Scratch { room, likely } = scratch;
    let facts = Facts::of(node, room);
    let agreement = Agreement {
        profile,
        outs,
        mets,
        facts: &facts,
        word,
        told: &[],
    };
    agreement.agrees_in_all(likely)
}

// Whether the profile says a verdict of all that a node knows, by a table for the conditions in which none is marked
// yet.
fn agrees_by(
    profile: &Profile,
    node: &NodeView<'_>,
    outs: Outs<'_, '_>,
    word: Word,
    table: &mut [bool],
    scratch: &mut Scratch,
) -> bool
    requires outs { outs_of outs.node ≡ (says node.now).out }
    requires table { IsClear table.old }
    ensures { let n = says node.now in IsTrue result ↔ Agrees profile.now n.out n.met n.known word }
{
    mark_mets(node, table);
    agrees_with(profile, node, outs, Mets::of(node, table), word, scratch)
}

// For up to 512 rules: whether the profile says a verdict of all that a node knows. The table is made in a function of
// its own, for nodes that name a condition: no other return makes room for it.
#[inline(never)]
fn agrees_by_few(
    profile: &Profile,
    node: &NodeView<'_>,
    outs: Outs<'_, '_>,
    word: Word,
    scratch: &mut Scratch,
) -> bool
    requires { outs_of outs.node ≡ (says node.now).out }
    ensures { let n = says node.now in IsTrue result ↔ Agrees profile.now n.out n.met n.known word }
{
    agrees_by(
        profile,
        node,
        outs,
        word,
        &mut [false; 6 * FEW_RULES],
        scratch,
    )
}

// For up to 2,048 rules: whether the profile says a verdict of all that a node knows.
#[inline(never)]
fn agrees_by_some(
    profile: &Profile,
    node: &NodeView<'_>,
    outs: Outs<'_, '_>,
    word: Word,
    scratch: &mut Scratch,
) -> bool
    requires { outs_of outs.node ≡ (says node.now).out }
    ensures { let n = says node.now in IsTrue result ↔ Agrees profile.now n.out n.met n.known word }
{
    agrees_by(
        profile,
        node,
        outs,
        word,
        &mut [false; 6 * SOME_RULES],
        scratch,
    )
}

// For up to 8,192 rules: whether the profile says a verdict of all that a node knows.
#[inline(never)]
fn agrees_by_many(
    profile: &Profile,
    node: &NodeView<'_>,
    outs: Outs<'_, '_>,
    word: Word,
    scratch: &mut Scratch,
) -> bool
    requires { outs_of outs.node ≡ (says node.now).out }
    ensures { let n = says node.now in IsTrue result ↔ Agrees profile.now n.out n.met n.known word }
{
    agrees_by(
        profile,
        node,
        outs,
        word,
        &mut [false; 6 * MAX_RULES],
        scratch,
    )
}

// Whether the profile says a verdict of all that a node knows, of which these rules are out.
fn agrees_but_for(
    profile: &Profile,
    node: &NodeView<'_>,
    outs: Outs<'_, '_>,
    word: Word,
    scratch: &mut Scratch,
) -> bool
    requires { outs_of outs.node ≡ (says node.now).out }
    ensures { let n = says node.now in IsTrue result ↔ Agrees profile.now n.out n.met n.known word }
{
    if has_no_met(node) {
        return agrees_with(profile, node, outs, Mets::none(), word, scratch);
    }
    let rules = profile.rules().len();
    if rules <= FEW_RULES {
        return agrees_by_few(profile, node, outs, word, scratch);
    }
    if rules <= SOME_RULES {
        return agrees_by_some(profile, node, outs, word, scratch);
    }
    agrees_by_many(profile, node, outs, word, scratch)
}

// Whether the profile says a verdict of all that a node knows, by a table of the rules that the node says to be out.
#[inline(never)]
fn agrees_by_outs(profile: &Profile, node: &NodeView<'_>, word: Word, scratch: &mut Scratch) -> bool
    ensures { let n = says node.now in IsTrue result ↔ Agrees profile.now n.out n.met n.known word }
{
    let mut marked = [false; 8192];
    mark_outs(node, &mut marked);
    agrees_but_for(profile, node, Outs::of(node, &marked), word, scratch)
}

// Whether the profile says a verdict of all that a node knows.
fn agrees_on(profile: &Profile, node: &NodeView<'_>, word: Word, scratch: &mut Scratch) -> bool
    ensures { let n = says node.now in IsTrue result ↔ Agrees profile.now n.out n.met n.known word }
{
    if has_none(node) {
        return agrees_but_for(profile, node, Outs::none(), word, scratch);
    }
    agrees_by_outs(profile, node, word, scratch)
}

// Whether the profile says a verdict of all that a node knows. A chain and a verdict that are kept as agreeing are not
// asked again.
fn agrees_once(
    profile: &Profile,
    node: &NodeView<'_>,
    word: Word,
    agreed: &mut Agreed,
    scratch: &mut Scratch,
) -> bool
    requires { AreAgreed profile.now (certificate_of node.now) agreed.old }
    ensures answer { let n = says node.now in IsTrue result ↔ Agrees profile.now n.out n.met n.known word }
    ensures kept { AreAgreed profile.now (certificate_of node.now) agreed.new }
{
    if agreed.has(node, word) {
        return true;
    }
    if !agrees_on(profile, node, word, scratch) {
        return false;
    }
    agreed.keep(node, word);
    true
}

// Whether a rule without conditions says a verdict of each number that a node of a sharp certificate leaves possible.
fn says_of_each(profile: &Profile, node: &NodeView<'_>, word: Word, scratch: &mut Scratch) -> bool
    ensures { let n = says node.now in IsTrue result ↔ IsTrue n.sharp × SaysOfEach profile.now n.known word }
{
    if !node.is_sharp() {
        return false;
    }
    let facts = Facts::of(node, &mut scratch.room);
    let agreement = Agreement {
        profile,
        outs: Outs::none(),
        mets: Mets::none(),
        facts: &facts,
        word,
        told: &[],
    };
    agreement.says_of_each()
}

// Whether a verdict is the profile's, by what a node knows.
fn return_agrees(
    profile: &Profile,
    node: &NodeView<'_>,
    word: Word,
    agreed: &mut Agreed,
    scratch: &mut Scratch,
) -> bool
    requires { AreAgreed profile.now (certificate_of node.now) agreed.old }
    ensures answer { IsTrue result ↔ ReturnAgrees profile.now (says node.now) word }
    ensures kept { AreAgreed profile.now (certificate_of node.now) agreed.new }
{
    if says_of_each(profile, node, word, scratch) {
        return true;
    }
    agrees_once(profile, node, word, agreed, scratch)
}

// Whether the instruction returns a verdict that is known, and the profile's on all that the node knows.
fn returns(
    profile: &Profile,
    insn: &Insn,
    node: &NodeView<'_>,
    agreed: &mut Agreed,
    scratch: &mut Scratch,
) -> bool
    requires { AreAgreed profile.now (certificate_of node.now) agreed.old }
    ensures answer { IsTrue result ↔ ReturnsAt profile.now insn.now (says node.now) }
    ensures kept { AreAgreed profile.now (certificate_of node.now) agreed.new }
{
    let Some(word) = returned_by(insn, node) else {
        return false;
    };
    return_agrees(profile, node, Word(word), agreed, scratch)
}

/// Whether a node, if it is a return, returns the profile's verdict at its instruction.
pub(crate) fn return_is_kept(
    profile: &Profile,
    insn: &Insn,
    node: &NodeView<'_>,
    agreed: &mut Agreed,
    scratch: &mut Scratch,
) -> bool
    requires { AreAgreed profile.now (certificate_of node.now) agreed.old }
    ensures answer { IsTrue result ↔ ((says node.now).kind ≡ kind.Return → ReturnsAt profile.now insn.now (says node.now)) }
    ensures kept { AreAgreed profile.now (certificate_of node.now) agreed.new }
{
    match node.kind() {
        Kind::Return => returns(profile, insn, node, agreed, scratch),
        Kind::Step(_, _) => true,
        Kind::Split(_, _, _, _) => true,
        Kind::Dead => true,
    }
}
