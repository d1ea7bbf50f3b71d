//! A kernel: its containers by their ids.
use crate::container::Container;
use crate::filters::OwnLists;
use crate::id::Id;
use crate::kernel::Kernel;
use crate::outcome::{Outcome, Response, TaskView};
use crate::store::Store;
use call_record::Record;
use cert_check::Checked;
use indexmap::IndexMap;
use std::alloc::{AllocError, Global};

/// A kernel that keeps the filters of each container in a store of this kind.
#[derive(Drop)]
pub struct Table<S: Store> {
    containers: IndexMap<Id, Container<S>>,
    alloc: Global,
}

/// A kernel whose tasks each keep a list of filters of their own.
pub type TaskTable = Table<OwnLists>;

impl<S: Store> Table<S> {
    ghost use Rattle.std.specs.Prelude.{ℕ, ◌≡◌, List, None};
    ghost use Rattle.processes.specs.Table.{table_of};

    /// A kernel to which no container is admitted.
    pub fn new(alloc: Global) -> Table<S>
        ensures { (id : List ℕ) → table_of result id ≡ None }
    {
        Table {
            containers: IndexMap::new(alloc),
            alloc,
        }
    }
}

impl<S: Store> Kernel for Table<S> {
    ghost use Rattle.processes.specs.Table.{table_of};

    ghost processes = { table_of };

    fn admit(&mut self, id: &Id, first: Checked<'_>) -> Result<(), AllocError> {
        let native = first.profile().native();
        let container = Container::begun(self.alloc, native, &first.program())?;
        self.containers.insert(id.again(), container)?;
        Ok(())
    }

    fn present(
        &mut self,
        id: &Id,
        task: u64,
        rec: &Record,
        attached: Option<&[u8]>,
        response: Option<Response>,
    ) -> Result<Outcome, AllocError> {
        let alloc = self.alloc;
        match self.containers.get_mut(id) {
            None => Ok(Outcome::NoTask),
            Some(container) => container.present(alloc, task, rec, attached, response),
        }
    }

    fn signal(&mut self, id: &Id, sig: u64) {
        if let Some(container) = self.containers.get_mut(id) {
            container.signal(sig);
        }
    }

    fn expel(&mut self, id: &Id) {
        let _ = self.containers.swap_remove(id);
    }

    fn task(&self, id: &Id, task: u64) -> Option<TaskView> {
        let container = self.containers.get(id)?;
        container.view(task)
    }

    fn live(&self, id: &Id) -> bool {
        match self.containers.get(id) {
            None => false,
            Some(container) => container.lives(),
        }
    }
}
