//! How the calls of systemd's groups stand in a profile.
ghost use Rattle.std.specs.Prelude.{◌≡◌, IfOk, map};
ghost use Rattle.call_groups.specs.Groups.{now_of};
ghost use Rattle.review.specs.Systemd as spec;

use crate::asked::asked_by;
use crate::groups::Part;
use crate::judged::{Judged, judge};
use crate::text::{all_refused, some_open};
use differ::Steps;
use profile::Profile;
use std::alloc::{AllocError, Global};

/// What a profile says of a call on all of its machines.
#[derive(Clone, Copy)]
pub enum Standing {
    /// It refuses all records.
    Refused,
    /// It lets a record through.
    Open,
    /// Neither is known.
    Undecided,
}

/// A call by its name, and what a profile says of it.
#[derive(Clone, Copy)]
pub struct Member {
    pub name: &'static str,
    pub standing: Standing,
}

// All records of a call.
fn any() -> Part
    ensures { spec.IsAny result }
{
    ("any", 0, 0, 0)
}

// How a call stands, by the answers on machines.
fn standing_of(list: &[Judged]) -> Standing
    ensures { result ≡ spec.standing_of list.now }
{
    if some_open(list) {
        return Standing::Open;
    }
    if all_refused(list) {
        Standing::Refused
    } else {
        Standing::Undecided
    }
}

// What a profile says of a call.
fn member_of(
    alloc: Global,
    profile: &Profile,
    name: &'static str,
    steps: &mut Steps,
) -> Result<Member, AllocError>
    ensures name { IfOk result (λ member. member.name.now ≡ name.now) }
    ensures standing { IfOk result (spec.IsStanding profile.now) }
{
    let asked = asked_by(alloc, profile.machines(), name, any())?;
    let judged = judge(alloc, profile, &asked, steps)?;
    Ok(Member {
        name,
        standing: standing_of(&judged),
    })
}

/// What a profile says of each of these calls.
pub(crate) fn judge_members(
    alloc: Global,
    profile: &Profile,
    names: &[&'static str],
    steps: &mut Steps,
) -> Result<Vec<Member>, AllocError>
    ensures { IfOk result (λ list. spec.AreStanding profile.now (map now_of names.now) list.items) }
{
    let mut list = Vec::new(alloc);
    for name in names {
        let member = member_of(alloc, profile, *name, steps)?;
        list.push(member)?;
    }
    Ok(list)
}
