//! What `ccell review` tells.
ghost use Rattle.std.specs.Prelude.{◌≡◌, ◌++◌, ℕ, List, IfErr, IfOk, IfSome, string_bytes};
ghost use Rattle.profile_json.specs.Breaks.{Breaks};
ghost use Rattle.profile_json.specs.Fault.{fault_of};
ghost use Rattle.review.specs.Reviewed as spec;
ghost use Rattle.review.specs.Groups.{AreAllGroups, GroupEntry};
ghost use Rattle.review.specs.Systemd as systemd;
ghost use Rattle.review.specs.SystemdTold.{AddsSystemd, TellsSystemd};
ghost use Rattle.review.specs.Told.{AddsGroup, TellsGroups};

use crate::asked::asked_of;
use crate::groups::Group;
use crate::judged::judge;
use crate::member::judge_members;
use crate::members::members_of;
use crate::systemd::group_names;
use crate::systemd_text::put_systemd;
use crate::table::groups;
use crate::text::put_group;
use differ::{Steps, all_steps};
use profile::Profile;
use profile_json::{Document, EntryRules, ProfileError};
use std::alloc::{AllocError, Global};
use wording::{End, Told, refused_profile};

// Adds what is told of a group.
fn add_group(
    alloc: Global,
    text: &mut String,
    profile: &Profile,
    all: &EntryRules,
    group: &Group,
    steps: &mut Steps,
) -> Result<(), AllocError>
    ensures { IfOk result (λ _. AddsGroup profile.now all.now.rules.items all.now.ends.items group.now (string_bytes text.old) (string_bytes text.new)) }
{
    let asked = asked_of(alloc, profile.machines(), group.2)?;
    let list = judge(alloc, profile, &asked, steps)?;
    put_group(alloc, text, profile, all, group, &list)?;
    Ok(())
}

// What is told of all groups.
fn text_of(alloc: Global, profile: &Profile, all: &EntryRules) -> Result<String, AllocError>
    ensures { IfOk result (λ text. (groups : List GroupEntry) × AreAllGroups groups
        × TellsGroups profile.now all.now.rules.items all.now.ends.items groups (string_bytes text)) }
{
    let mut text = String::new(alloc);
    let mut steps = all_steps();
    let groups = groups();
    for group in groups {
        add_group(alloc, &mut text, profile, all, group, &mut steps)?;
    }
    Ok(text)
}

// Adds what is told of a group of systemd.
fn add_systemd(
    alloc: Global,
    text: &mut String,
    profile: &Profile,
    group: &str,
    steps: &mut Steps,
) -> Result<(), AllocError>
    ensures { IfOk result (λ _. AddsSystemd profile.now group.now (string_bytes text.old) (string_bytes text.new)) }
{
    let names = members_of(alloc, profile.machines(), group)?;
    let list = judge_members(alloc, profile, &names, steps)?;
    put_systemd(alloc, text, group, &list)?;
    Ok(())
}

// What is told of all groups of systemd.
fn systemd_of(alloc: Global, profile: &Profile) -> Result<String, AllocError>
    ensures { IfOk result (λ text. TellsSystemd profile.now systemd.group_names (string_bytes text)) }
{
    let mut text = String::new(alloc);
    let mut steps = all_steps();
    let groups = group_names();
    for group in groups {
        add_systemd(alloc, &mut text, profile, group, &mut steps)?;
    }
    Ok(text)
}

// What is told of a profile.
fn told_of(alloc: Global, profile: &Profile, all: &EntryRules) -> Result<String, AllocError>
    ensures { IfOk result (λ text. spec.TellsProfile profile.now all.now.rules.items all.now.ends.items (string_bytes text)) }
{
    let mut text = text_of(alloc, profile, all)?;
    let systemd = systemd_of(alloc, profile)?;
    text.push_str(&systemd)?;
    Ok(text)
}

// What is told of a bundle.
fn text_for(alloc: Global, document: &Document) -> Result<String, ProfileError>
    ensures tells { IfOk result (λ text. spec.TellsReview document.now.native document.now.bytes (string_bytes text)) }
    // Unless memory ran out, the fault stands in the bundle.
    ensures fault { IfErr result (λ e. IfSome (fault_of e) (Breaks document.now.bytes document.now.native)) }
{
    let read = document.bundle()?;
    let text = told_of(alloc, &read.profile, &read.by_entry)?;
    Ok(text)
}

/// Reports what a bundle leaves open of the calls by which a kernel is attacked most. Group
/// by group, it reports each call that it lets through, and by which entry. The groups of systemd follow.
pub fn review(alloc: Global, document: &Document) -> Result<Told, AllocError>
    ensures { IfOk result (spec.IsReviewed document.now.native document.now.bytes) }
{
    match text_for(alloc, document) {
        Ok(text) => Ok(Told {
            bytes: text.into_bytes(),
            end: End::Done,
        }),
        Err(error) => refused_profile(alloc, error),
    }
}
