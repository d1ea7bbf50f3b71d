//! The tasks of a container, as a list.
ghost use Rattle.std.specs.Prelude.{◌≡◌, ◌==◌, ◌&&◌, ◌<◌, IfSome, List, find, if◌then◌else◌, length, option_and_then, option_map, position, slice_get};
ghost use Rattle.std.specs.List.{list_any};
ghost use Rattle.processes.specs.Tasks.{Filter, end_by, end_where, group_lives, is_in_group, is_live, is_task, live_task};
ghost use Rattle.processes.specs.Kept.{all_of, process_of};
ghost use Rattle.processes.specs.inner.Table.{bare_of, is_meant};

use crate::outcome::End;
use crate::task::{Task, end_by, is_live};

/// Which tasks of a container are meant.
#[derive(Clone, Copy)]
pub(crate) enum Which {
    /// The task with this number.
    One(u64),
    /// The tasks of a group.
    Group(u64),
    /// The tasks of a group but the one with this number.
    Siblings(u64, u64),
    /// All.
    All,
}

/// Whether a task is one of those that are meant.
pub(crate) fn is_meant<H>(which: Which, task: &Task<H>) -> bool
    ensures { result ≡ is_meant which (bare_of task.now) }
{
    match which {
        Which::One(number) => u64::from(task.number) == number,
        Which::Group(group) => u64::from(task.group) == group,
        Which::Siblings(group, number) => {
            u64::from(task.group) == group && u64::from(task.number) != number
        }
        Which::All => true,
    }
}

/// Where the live task with this number stands.
pub(crate) fn live_index<H>(tasks: &[Task<H>], number: u64) -> Option<usize>
    ensures found { (seen : H → List Filter) → live_task number (all_of seen tasks.now)
        ≡ option_and_then (λ i. option_map (process_of seen) (slice_get tasks.now i)) result }
    ensures within { IfSome result (λ i. i < length tasks.now) }
{
    live_position(tasks, number)
}

fn live_position<H>(tasks: &[Task<H>], number: u64) -> Option<usize>
    ensures { result
        ≡ position (λ t. is_task number (bare_of t) && is_live (bare_of t)) tasks.now }
{
    tasks
        .iter()
        .position(|task| u64::from(task.number) == number && is_live(task))
}

/// Where the task with this number stands, live or ended.
pub(crate) fn index_of<H>(tasks: &[Task<H>], number: u64) -> Option<usize>
    ensures found { (seen : H → List Filter) → find (is_task number) (all_of seen tasks.now)
        ≡ option_and_then (λ i. option_map (process_of seen) (slice_get tasks.now i)) result }
    ensures within { IfSome result (λ i. i < length tasks.now) }
{
    position_of(tasks, number)
}

fn position_of<H>(tasks: &[Task<H>], number: u64) -> Option<usize>
    ensures { result ≡ position (λ t. is_task number (bare_of t)) tasks.now }
{
    tasks
        .iter()
        .position(|task| u64::from(task.number) == number)
}

/// Whether some task of a group lives.
pub(crate) fn group_lives<H>(tasks: &[Task<H>], group: u64) -> bool
    ensures { (seen : H → List Filter) → result ≡ group_lives group (all_of seen tasks.now) }
{
    any_lives(tasks, group)
}

fn any_lives<H>(tasks: &[Task<H>], group: u64) -> bool
    ensures { result ≡ list_any (λ t. is_in_group group (bare_of t) && is_live (bare_of t)) tasks.now }
{
    tasks
        .iter()
        .any(|task| u64::from(task.group) == group && is_live(task))
}

/// Ends the live tasks that are meant.
pub(crate) fn end_where<H>(tasks: &mut Vec<Task<H>>, which: Which, end: End)
    ensures { (seen : H → List Filter) → all_of seen tasks.new.items
        ≡ end_where (is_meant which) end (all_of seen tasks.old.items) }
{
    end_each(tasks, which, end);
}

fn end_each<H>(tasks: &mut [Task<H>], which: Which, end: End)
    ensures { (seen : H → List Filter) → all_of seen tasks.new
        ≡ end_where (is_meant which) end (all_of seen tasks.old) }
{
    for task in tasks.iter_mut() {
        end_if_meant(task, which, end);
    }
}

fn end_if_meant<H>(task: &mut Task<H>, which: Which, end: End)
    ensures { (seen : H → List Filter) → process_of seen task.new ≡ (if is_meant which (process_of seen task.old)
        then end_by end (process_of seen task.old) else process_of seen task.old) }
{
    if is_meant(which, task) {
        end_by(task, end);
    }
}
