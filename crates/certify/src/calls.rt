//! Where what is known is cut between calls: at their machines' tokens, and then in halves of their numbers.
ghost use Rattle.std.specs.Prelude.{◌≡◌, ◌≤◌, ◌<◌, ◌+◌, ◌-◌, ◌/◌, ◌↔◌, ℕ, All, Any, IsTrue, MatchOption};
ghost use Rattle.machines.specs.declared.arch.Arch.{Arch as TheArch};
ghost use Rattle.machines.specs.Arch.{token_of};
ghost use Rattle.cert_form.specs.Nodes.{literals};
ghost use Rattle.certify.specs.inner.Apart.{AreTold, IsFirstOpen, IsHalved, IsLeftWhole, IsMachine, IsTold};
ghost use Rattle.certify.specs.inner.Leaf.{BeginsWithin};
ghost use Rattle.certify.specs.inner.Plain.{IsUnsettled, PartsAtReturn};

use crate::chain::Chain;
use crate::cuts::{Cut, NUMBER, TOKEN};
use cert_state::{Facts, Knowledge, Lit};
use machines::{Arch, Numbers};
use profile::{Profile, foreign_numbers};

// The numbers of all tables are below this, but for those of x32 and the private ones of ARM.
const ABOVE_ALL_NUMBERS: u32 = 512;

// Whether it is told if a record's token is this.
fn is_told(facts: &Facts<'_, Chain<'_>>, token: u32) -> bool
    ensures { IsTrue result ↔ IsTold (literals facts.now.state.now.entries.now facts.now.state.now.number) token }
{
    if facts.entails(&Lit::Bits(TOKEN, u32::MAX, token)) {
        return true;
    }
    facts.entails(&Lit::NotBits(TOKEN, u32::MAX, token))
}

// Where the first of some machines is cut from the others of which it is not told whether a record is its call.
fn cut_of_tokens(machines: &[Arch], facts: &Facts<'_, Chain<'_>>) -> Option<Cut>
    ensures { let known = literals facts.now.state.now.entries.now facts.now.state.now.number in
        MatchOption result (AreTold known machines.now) (λ cut. IsFirstOpen known machines.now cut.one cut.other) }
{
    for machine in machines {
        let token = machine.token();
        if !is_told(facts, token) {
            return Cut::bits(TOKEN, u32::MAX, token);
        }
    }
    None
}

// The first machine with a token.
fn machine_of(profile: &Profile, token: u32) -> Option<Arch>
    ensures { MatchOption result (All (λ (arch : TheArch). token_of arch ≡ token → ⊥) profile.now.machines) (IsMachine profile.now.machines token) }
{
    for machine in profile.machines() {
        if machine.token() == token {
            return Some(*machine);
        }
    }
    None
}

// Whether the last one of some numbers is foreign, of one stretch, and the first one stands before that.
fn begins_within(numbers: Numbers, low: u32, high: u32) -> bool
    ensures { IsTrue result ↔ BeginsWithin low high numbers }
{
    if low < numbers.first {
        return numbers.contain(high);
    }
    false
}

// Whether the last one of some numbers is in one of several foreign stretches, and the first one stands before that
// stretch.
fn begins(foreign: &[Numbers], low: u32, high: u32) -> bool
    ensures { IsTrue result ↔ Any (BeginsWithin low high) foreign.now }
{
    foreign
        .iter()
        .any(|numbers| begins_within(*numbers, low, high))
}

// Where the numbers from one to another are cut: in the middle, but that foreign ones come apart first.
fn middle(foreign: &[Numbers], low: u32, high: u32) -> u32
    requires { low < high }
    ensures from { low ≤ result }
    ensures to { result < high }
    ensures foreign { Any (BeginsWithin low high) foreign.now
        → Any (λ numbers. BeginsWithin low high numbers × (result + 1 ≡ numbers.first)) foreign.now }
    ensures half { (Any (BeginsWithin low high) foreign.now → ⊥) → result ≡ low + (high - low) / 2 }
{
    for numbers in foreign {
        if begins_within(*numbers, low, high) {
            return numbers.first - 1;
        }
    }
    low + (high - low) / 2
}

// Where the numbers of a machine's calls are cut in halves, if they are small ones, or end with foreign ones.
fn cut_of_numbers(profile: &Profile, token: u32, low: u32, high: u32) -> Option<Cut>
    requires { low ≤ high }
    ensures { MatchOption result (IsLeftWhole profile.now.machines token low high)
        (λ cut. IsHalved profile.now.machines token low high cut.one cut.other) }
{
    let machine = machine_of(profile, token)?;
    if low == high {
        return None;
    }
    let foreign = foreign_numbers(profile.machines(), machine);
    if high >= ABOVE_ALL_NUMBERS && !begins(foreign, low, high) {
        return None;
    }
    Cut::below(NUMBER, middle(foreign, low, high) + 1)
}

/// Where the calls are cut that are possible: one machine's from the others, and then halves of their numbers. A profile without
/// conditions is settled where they are not.
pub(crate) fn cut_of_calls(profile: &Profile, facts: &Facts<'_, Chain<'_>>) -> Option<Cut>
    ensures { let known = literals facts.now.state.now.entries.now facts.now.state.now.number in
        (word : ℕ) (nodes : ℕ) → IsUnsettled profile.now known word nodes
        → MatchOption result ⊥ (λ cut. PartsAtReturn profile.now known word nodes cut.one cut.other) }
{
    let (from, to) = facts.range(TOKEN)?;
    let (low, high) = facts.range(NUMBER)?;
    if from != to {
        return cut_of_tokens(profile.machines(), facts);
    }
    cut_of_numbers(profile, from, low, high)
}
