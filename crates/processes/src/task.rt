//! One task.
ghost use Rattle.std.specs.Prelude.{◌≡◌, List};
ghost use Rattle.processes.specs.Tasks.{Filter, end_by, is_live};
ghost use Rattle.processes.specs.Kept.{process_of};
ghost use Rattle.processes.specs.inner.Table.{bare_of};

use crate::outcome::End;

/// A task of a container, live or ended, with a handle of its filters.
#[derive(Drop)]
pub(crate) struct Task<H> {
    pub(crate) number: u32,
    pub(crate) group: u32,
    pub(crate) parent: u32,
    pub(crate) images: u64,
    pub(crate) end: Option<End>,
    pub(crate) filters: H,
    /// Which of these has a listener, by its load number.
    pub(crate) listener: Option<u32>,
}

/// Whether a task lives.
pub(crate) fn is_live<H>(task: &Task<H>) -> bool
    ensures { result ≡ is_live (bare_of task.now) }
{
    task.end.is_none()
}

/// Ends a task, if it lives.
pub(crate) fn end_by<H>(task: &mut Task<H>, end: End)
    ensures { (seen : H → List Filter) → process_of seen task.new ≡ end_by end (process_of seen task.old) }
{
    if is_live(task) {
        task.end = Some(end);
    }
}
