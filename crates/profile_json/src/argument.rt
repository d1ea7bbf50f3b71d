//! The conditions of an entry, from its `args`.
ghost use Rattle.std.specs.Prelude.{◌≡◌, ◌<◌, ◌==◌, [], map, true, false, IfErr, IfOk, IsSomeAnd, Ok};
ghost use Rattle.std.specs.List.{list_any};
ghost use Rattle.serde_json.specs.View.{view};
ghost use Rattle.profile.specs.Operator.{are_distinct};
ghost use Rattle.machines.specs.declared.arch.Family.{Family};
ghost use Rattle.profile_json.specs.Fault.{fault_of};
ghost use Rattle.profile_json.specs.Names as names;
ghost use Rattle.profile_json.specs.Place.{ArgBreaksAt, MemberBreaksAt};
ghost use Rattle.profile_json.specs.inner.Outcome.{Gives};
ghost use Rattle.profile_json.specs.Parts.{cond_parts};
ghost use Rattle.profile_json.specs.inner.Reading as spec;

use crate::fault::ProfileError;
use crate::key::{self, ARGS, INDEX, OP, VALUE, VALUE_TWO};
use crate::lookup::{list_or_empty, object_of, text_at, whole_at, whole_or_zero};
use crate::refusal::{EntryRefusal, Part, RefusedAt};
use arrayvec::ArrayVec;
use profile::{Cond, Op, has_index};
use serde_json::Value;

/// The operator of a name.
#[tactic(auto, unfolding(crate::specs::Names::op_named))]
fn op_named(name: &str) -> Option<Op>
    ensures { result ≡ names.op_named name.now }
{
    match name {
        key::NE => Some(Op::Ne),
        key::LT => Some(Op::Lt),
        key::LE => Some(Op::Le),
        key::EQ => Some(Op::Eq),
        key::GE => Some(Op::Ge),
        key::GT => Some(Op::Gt),
        key::MASKED_EQ => Some(Op::MaskedEq),
        _ => None,
    }
}

#[tactic(auto, unfolding(crate::specs::inner::Reading::op_at))]
fn op_at(member: &Value) -> Result<Op, ProfileError>
    ensures { Gives (λ o. o) result (spec.op_at (view member.now)) }
{
    let name = text_at(member, OP)?;
    op_named(name).ok_or(ProfileError::UnknownOp)
}

/// The argument that a member names, which no earlier condition names.
#[tactic(auto, using(crate::proofs::reading::Conditions::any_index), unfolding(crate::specs::inner::Reading::index_at))]
fn index_at(member: &Value, earlier: &ArrayVec<Cond, 6>) -> Result<u8, ProfileError>
    ensures reading { Gives (λ i. i) result (spec.index_at (map cond_parts earlier.now.items) (view member.now)) }
    ensures small { IfOk result (λ i. i < 6) }
    ensures fresh { IfOk result (λ i. list_any (λ j. j == i) (map (λ c. c.index) earlier.now.items) ≡ false) }
{
    let number = whole_at(member, INDEX)?;
    if number >= 6 {
        return Err(ProfileError::BadIndex);
    }
    let index = number as u8;
    if has_index(earlier.as_slice(), index) {
        return Err(ProfileError::RepeatedIndex);
    }
    Ok(index)
}

/// A condition. The second value counts under MASKED_EQ alone.
#[tactic(auto, unfolding(crate::specs::inner::Reading::cond_of))]
fn cond_of(index: u8, op: Op, value: u64, second: u64) -> Result<Cond, ProfileError>
    requires { index < 6 }
    ensures reading { Gives cond_parts result (spec.cond_of index op value second) }
    ensures index { IfOk result (λ c. c.index ≡ index) }
{
    Cond::new(index, op, value, op.mask(second)).ok_or(ProfileError::StrayDatum)
}

/// The condition of a member of `args`, after those of the earlier members.
#[tactic(auto, unfolding(crate::specs::inner::Reading::arg_of))]
fn arg_of(value: &Value, earlier: &ArrayVec<Cond, 6>) -> Result<Cond, ProfileError>
    ensures reading { Gives cond_parts result (spec.arg_of (map cond_parts earlier.now.items) (view value.now)) }
    ensures fresh { IfOk result (λ c. list_any (λ j. j == c.index) (map (λ d. d.index) earlier.now.items) ≡ false) }
{
    let member = object_of(value)?;
    let index = index_at(member, earlier)?;
    let first = whole_at(member, VALUE)?;
    let second = whole_or_zero(member, VALUE_TWO)?;
    let op = op_at(member)?;
    cond_of(index, op, first, second)
}

/// The conditions of an entry, each on an argument of its own, or the first value that is none.
fn args_in(values: &[Value]) -> Result<ArrayVec<Cond, 6>, RefusedAt>
    ensures ok { IfOk result (λ v. spec.args_after [] (map view values.now) ≡ Ok (map cond_parts v.items)) }
    ensures apart { IfOk result (λ v. are_distinct (map (λ c. c.index) v.items) ≡ true) }
    ensures err { IfErr result (λ r. IsSomeAnd (fault_of r.error) (ArgBreaksAt (map view values.now) r.at)) }
{
    let mut found = ArrayVec::new();
    for (at, value) in values.iter().enumerate() {
        match arg_of(value, &found) {
            Ok(cond) => found.push(cond),
            Err(error) => return Err(RefusedAt { error, at }),
        }
    }
    Ok(found)
}

#[tactic(auto, unfolding(crate::specs::inner::Reading::args_of))]
pub(crate) fn args_of(entry: &Value) -> Result<ArrayVec<Cond, 6>, EntryRefusal>
    ensures ok { IfOk result (λ v. spec.args_of (view entry.now) ≡ Ok (map cond_parts v.items)) }
    ensures apart { IfOk result (λ v. are_distinct (map (λ c. c.index) v.items) ≡ true) }
    ensures err { (family : Family) → IfErr result (λ r. IsSomeAnd (fault_of r.error) (MemberBreaksAt family (view entry.now) r.part)) }
{
    let values = match list_or_empty(entry, ARGS) {
        Ok(values) => values,
        Err(error) => {
            return Err(EntryRefusal {
                error,
                part: Part::Args,
            });
        }
    };
    match args_in(values) {
        Ok(conds) => Ok(conds),
        Err(told) => Err(EntryRefusal {
            error: told.error,
            part: Part::Arg(told.at),
        }),
    }
}
