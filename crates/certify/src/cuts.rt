//! Where what is known is cut in two.
ghost use Rattle.std.specs.Prelude.{◌≡◌, ◌≢◌, ◌-◌, ◌≤◌, ◌⊎◌, ℕ, IfSome, MatchOption, None, bit_and};
ghost use Rattle.cert_form.specs.Nodes.{literals};
ghost use Rattle.cert_state.specs.declared.literal.Lit.TheVariants.{Bits, In, NotBits};
ghost use Rattle.cert_state.specs.Literals.{IsLit, all_bits};
ghost use Rattle.certify.specs.inner.Plain.{IsUnsettled, PartsAtReturn};
ghost use Rattle.certify.specs.inner.Cuts.{AreHalves, AreHalves-prop, IsLit-prop};

use crate::calls::cut_of_calls;
use crate::chain::Chain;
use cert_state::{Facts, Knowledge, Lit, Room, is_bit, range};
use machines::Arch;
use profile::{Cond, Op, Profile, Rule, foreign_numbers};

/// Two literals of a word, of which one holds of each record.
#[derive(Clone, Copy)]
pub(crate) struct Cut {
    pub(crate) one: Lit,
    pub(crate) other: Lit,
    ghost one_is: { IsLit one } by { IsLit-prop one },
    ghost other_is: { IsLit other } by { IsLit-prop other },
    ghost covers: { AreHalves one other } by { AreHalves-prop one other },
}

/// The words of a record that hold the call's number and the machine's token.
pub(crate) const NUMBER: u8 = 0;

pub(crate) const TOKEN: u8 = 1;

impl Cut {
    /// A word is below a number, or at least this. It is always at least 0.
    pub(crate) fn below(word: u8, number: u32) -> Option<Cut>
        ensures none { (result ≡ None) → (16 ≤ word) ⊎ (number ≡ 0) }
        ensures cut { IfSome result (λ cut. (cut.one ≡ In word 0 (number - 1)) × (cut.other ≡ In word number all_bits)) }
    {
        if word >= 16 || number == 0 {
            return None;
        }
        Some(Cut {
            one: Lit::In(word, 0, number - 1),
            other: Lit::In(word, number, u32::MAX),
        })
    }

    /// A word is this under a mask, or is not. No word has a bit outside the mask.
    pub(crate) fn bits(word: u8, mask: u32, datum: u32) -> Option<Cut>
        ensures none { (result ≡ None) → (16 ≤ word) ⊎ (bit_and datum mask ≢ datum) }
        ensures cut { IfSome result (λ cut. (cut.one ≡ Bits word mask datum) × (cut.other ≡ NotBits word mask datum)) }
    {
        if word >= 16 || datum & mask != datum {
            return None;
        }
        Some(Cut {
            one: Lit::Bits(word, mask, datum),
            other: Lit::NotBits(word, mask, datum),
        })
    }

    /// A bit of a word is not set, or is set.
    pub(crate) fn bit(word: u8, bit: u32) -> Option<Cut> {
        if word >= 16 || !is_bit(bit) {
            return None;
        }
        Some(Cut {
            one: Lit::Bits(word, bit, 0),
            other: Lit::Bits(word, bit, bit),
        })
    }

    // Whether it tells something: neither of the two is known already.
    fn is_open(&self, facts: &Facts<'_, Chain<'_>>) -> bool {
        !facts.entails(&self.one) && !facts.entails(&self.other)
    }
}

// The cut, if it tells something.
fn if_open(cut: Option<Cut>, facts: &Facts<'_, Chain<'_>>) -> Option<Cut> {
    let cut = cut?;
    if cut.is_open(facts) {
        return Some(cut);
    }
    None
}

// The halves of a number of 64 bits, the high one first.
fn halves(number: u64) -> (u32, u32) {
    ((number >> 32) as u32, (number & 0xffff_ffff) as u32)
}

// An argument of which a condition asks: its low word, and whether this alone is compared. Argument j stands in the words
// 4 + 2 j and 5 + 2 j, the low half first.
#[derive(Clone, Copy)]
struct Argument {
    word: u8,
    narrow: bool,
}

// Where the high word is cut for a comparison with bits under a mask.
fn cut_above(facts: &Facts<'_, Chain<'_>>, of: Argument, mask: u32, datum: u32) -> Option<Cut> {
    if of.narrow {
        return None;
    }
    if_open(Cut::bits(of.word.saturating_add(1), mask, datum), facts)
}

// Where the halves of an argument are cut for a comparison with bits under a mask.
fn cut_by_bits(facts: &Facts<'_, Chain<'_>>, of: Argument, mask: u64, datum: u64) -> Option<Cut> {
    let (high_mask, low_mask) = halves(mask);
    let (high, low) = halves(datum);
    match cut_above(facts, of, high_mask, high) {
        Some(cut) => Some(cut),
        None => if_open(Cut::bits(of.word, low_mask, low), facts),
    }
}

// Where a word is cut for a comparison by order: in front of a number, or behind it.
fn cut_beside(facts: &Facts<'_, Chain<'_>>, word: u8, number: u32) -> Option<Cut> {
    match if_open(Cut::below(word, number), facts) {
        Some(cut) => Some(cut),
        None => if_open(Cut::below(word, number.checked_add(1)?), facts),
    }
}

// Where the halves of an argument are cut for a comparison by order.
fn cut_by_order(facts: &Facts<'_, Chain<'_>>, of: Argument, value: u64) -> Option<Cut> {
    let (high, low) = halves(value);
    if !of.narrow
        && let Some(cut) = cut_beside(facts, of.word.saturating_add(1), high)
    {
        return Some(cut);
    }
    cut_beside(facts, of.word, low)
}

// Where the argument of a condition is cut.
fn cut_of_condition(facts: &Facts<'_, Chain<'_>>, narrow: bool, cond: &Cond) -> Option<Cut> {
    let word = cond.index.saturating_mul(2).saturating_add(4);
    let of = Argument { word, narrow };
    match cond.op {
        Op::Eq | Op::Ne => cut_by_bits(facts, of, u64::MAX, cond.value),
        Op::MaskedEq => cut_by_bits(facts, of, cond.value, cond.datum),
        Op::Lt | Op::Le | Op::Ge | Op::Gt => cut_by_order(facts, of, cond.value),
    }
}

// Where a rule is cut that is not settled: at its machine, its number, or a condition.
fn cut_of_rule(facts: &Facts<'_, Chain<'_>>, rule: &Rule) -> Option<Cut> {
    let machine = Cut::bits(TOKEN, u32::MAX, rule.arch.token());
    if let Some(cut) = if_open(machine, facts) {
        return Some(cut);
    }
    if facts.entails(&Lit::NotBits(TOKEN, u32::MAX, rule.arch.token())) {
        return None;
    }
    if let Some(cut) = if_open(Cut::bits(NUMBER, u32::MAX, rule.nr), facts) {
        return Some(cut);
    }
    if facts.entails(&Lit::NotBits(NUMBER, u32::MAX, rule.nr)) {
        return None;
    }
    for cond in rule.conds.as_slice() {
        if let Some(cut) = cut_of_condition(facts, rule.is_narrow(), cond) {
            return Some(cut);
        }
    }
    None
}

// Where foreign numbers with a machine's token are cut from the rest, if a call may be its.
fn cut_of_foreign(profile: &Profile, facts: &Facts<'_, Chain<'_>>, machine: Arch) -> Option<Cut> {
    if facts.entails(&Lit::NotBits(TOKEN, u32::MAX, machine.token())) {
        return None;
    }
    for foreign in foreign_numbers(profile.machines(), machine) {
        if let Some(cut) = if_open(Cut::below(NUMBER, foreign.first), facts) {
            return Some(cut);
        }
        if let Some(next) = foreign.last.checked_add(1)
            && let Some(cut) = if_open(Cut::below(NUMBER, next), facts)
        {
            return Some(cut);
        }
    }
    None
}

// Where foreign numbers are cut from the rest, or a rule that is not settled.
fn cut_of_rules(profile: &Profile, known: &Chain<'_>, facts: &Facts<'_, Chain<'_>>) -> Option<Cut> {
    for machine in profile.machines() {
        if let Some(cut) = cut_of_foreign(profile, facts, *machine) {
            return Some(cut);
        }
    }
    let (least, greatest) = range(known, NUMBER).unwrap_or((1, 0));
    for rule in profile.rules() {
        if rule.nr < least || rule.nr > greatest {
            continue;
        }
        if let Some(cut) = cut_of_rule(facts, rule) {
            return Some(cut);
        }
    }
    None
}

/// Where a profile is cut that is not settled: between calls, then at foreign numbers, and at conditions.
pub(crate) fn cut_of_profile(profile: &Profile, known: &Chain<'_>) -> Option<Cut>
    ensures { (word : ℕ) (nodes : ℕ) → IsUnsettled profile.now (literals known.now.entries.now known.now.number) word nodes
        → MatchOption result ⊥ (λ cut. PartsAtReturn profile.now (literals known.now.entries.now known.now.number) word nodes cut.one cut.other) }
{
    let mut room = Room::new();
    let facts = Facts::of(known, &mut room);
    match cut_of_calls(profile, &facts) {
        Some(cut) => Some(cut),
        None => cut_of_rules(profile, known, &facts),
    }
}
