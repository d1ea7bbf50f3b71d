//! Profiles, and what they say of a record.
ghost use Rattle.std.specs.Prelude.{◌≡◌, ◌↔◌, IsTrue};
ghost use Rattle.profile.specs.Said.{EachRecordIsSaidOneVerdict};
ghost use Rattle.profile.specs.Build.{BuildingIsOne};

use crate::clashes::first_clash;
use crate::distinct::{Kept, keep_once};
use crate::fault::BuildError;
use crate::index::Index;
use crate::machine_order::{MACHINES, are_for, are_of_family, first_foreign, in_order, lists};
use crate::rules::Rule;
use arrayvec::ArrayVec;
use call_record::{Record, Word};
use machines::Arch;
use std::alloc::Global;
use std::marker::Model;

/// A profile: which verdict a call record gets.
#[derive(Drop)]
pub struct Profile {
    native: Arch,
    machines: ArrayVec<Arch, MACHINES>,
    default_word: Word,
    rules: Vec<Rule>,
    index: Index,
}

impl Model for Profile {
    ghost use Rattle.profile.specs.Policy.{Policy, IsProfile};
    ghost use Rattle.profile.specs.inner.Places.{IsIndexOf};

    ghost Value = { Policy };

    ghost view = { λ p. record {
      native = p.native;
      machines = p.machines.items;
      default_word = p.default_word;
      rules = p.rules.items;
    } };

    ghost invariant = { λ p. IsProfile (record {
      native = p.native;
      machines = p.machines.items;
      default_word = p.default_word;
      rules = p.rules.items;
    }) × IsIndexOf p.rules.items p.index };
}

impl Profile {
    ghost use Rattle.std.specs.Prelude.{◌<◌, IfOk, IfErr, Some, length, slice_get};
    ghost use Rattle.machines.specs.Arch.{token_of};
    ghost use Rattle.call_record.specs.Record.{words};
    ghost use Rattle.profile.specs.declared.rules.Rule.{Rule as TheRule};
    ghost use Rattle.profile.specs.Latest.{IsLatest};
    ghost use Rattle.profile.specs.Policy.{Says, IsProfile, IsNative};
    ghost use Rattle.profile.specs.Build.{IsBuiltOf, IsFirstCause};

    /// The profile of these machines and rules, of which equal ones are kept once.
    ///
    /// The causes of an error are looked for in this order, and the first is told:
    /// `NativeMissing`, `MixedFamilies`, `ForeignRule` at the least place, `TooMany`, and `Overlap`,
    /// whose second place is the least, and then its first. Memory is asked for after the first
    /// three.
    pub fn build(
        alloc: Global,
        native: Arch,
        archs: &[Arch],
        default_word: Word,
        rules: Vec<Rule>,
    ) -> Result<Profile, BuildError>
        ensures ok { IfOk result (IsBuiltOf native archs.now default_word rules.items) }
        ensures err { IfErr result (IsFirstCause native archs.now rules.items) }
    {
        let family = native.family();
        if !lists(archs, native) {
            return Err(BuildError::NativeMissing);
        }
        if !are_of_family(family, archs) {
            return Err(BuildError::MixedFamilies);
        }
        if let Some(place) = first_foreign(archs, &rules) {
            return Err(BuildError::ForeignRule(place));
        }
        let Kept {
            rules,
            places,
            index,
        } = keep_once(alloc, rules)?;
        if let Some((first, second)) = first_clash(&rules, &index) {
            return Err(BuildError::Overlap(places[first], places[second]));
        }
        Ok(Profile {
            native,
            machines: in_order(family, archs),
            default_word,
            rules,
            index,
        })
    }

    /// The machine that the profile is for.
    pub fn native(&self) -> Arch
        ensures { result ≡ self.now.native }
    {
        self.native
    }

    /// The listed machines, of one family, each once, x86-64 first.
    pub fn machines(&self) -> &[Arch]
        ensures machines { result.now ≡ self.now.machines }
        ensures is_profile { IsProfile self.now }
    {
        self.machines.as_slice()
    }

    /// The verdict of a record that no rule matches.
    pub fn default_word(&self) -> Word
        ensures { result ≡ self.now.default_word }
    {
        self.default_word
    }

    /// The rules, each once, in order.
    pub fn rules(&self) -> &[Rule]
        ensures rules { result.now ≡ self.now.rules }
        ensures is_profile { IsProfile self.now }
    {
        &self.rules
    }

    /// The place of the last rule for a call, by its machine's token and its number.
    pub fn latest(&self, token: u32, number: u32) -> Option<usize>
        ensures { IsLatest self.now.rules token number (length self.now.rules) result }
    {
        self.index.latest(token, number)
    }

    /// The place of the last rule before a place that is for the same call.
    pub fn earlier(&self, place: usize) -> Option<usize>
        requires { place < length self.now.rules }
        ensures { (rule : TheRule) → slice_get self.now.rules place ≡ Some rule
            → IsLatest self.now.rules (token_of rule.arch) rule.nr place result }
    {
        self.index.earlier(place)
    }

    /// The verdict of a record. It is [`Word::KILL_THREAD`] where the record is no call of a listed
    /// machine.
    pub fn decide(&self, call: &Record) -> Word
        ensures { Says self.now (words call.now) result }
    {
        if !self.is_native(call) {
            return Word::KILL_THREAD;
        }
        let mut next = self.index.latest(call.arch, call.nr);
        while let Some(place) = next {
            let rule = &self.rules[place];
            if rule.matches(call) {
                return rule.word;
            }
            next = self.index.earlier(place);
        }
        self.default_word
    }

    fn is_native(&self, call: &Record) -> bool
        ensures { IsTrue result ↔ IsNative self.now (words call.now) }
    {
        are_for(self.machines.as_slice(), call.arch, call.nr)
    }
}

/// A clear profile says exactly one verdict of each record: that of the first rule that matches.
pub fn each_record_is_said_one_verdict()
    ensures { EachRecordIsSaidOneVerdict }
{}

/// What is built of the same parts is the same profile.
pub fn building_is_one()
    ensures { BuildingIsOne }
{}
