//! How a kernel keeps the filters of a container's tasks.
ghost use Rattle.std.specs.Prelude.{ℕ, ◌≡◌, ◌+◌, ◌-◌, ◌^◌, ◌<◌, ◌≤◌, ◌∷◌, [], List, All, IfOk, OnErr, length, map, true, vec_len};
ghost use Rattle.call_record.specs.Verdict.{strictest_of};
ghost use Rattle.kernel_check.specs.Lent.{accepted_insns};
ghost use Rattle.processes.specs.Kernel.{is_oldest_part};
ghost use Rattle.processes.specs.Stores.{has_filter, loads_in, notifier, program_filter, size_beside};
ghost use Rattle.processes.specs.Tasks.{Filter};

use call_record::{Record, Word};
use kernel_check::Accepted;
use machines::Arch;
use std::alloc::{AllocError, Global};

/// The filters of a container: each task holds a handle, which stands for its list of filters.
pub trait Store: Drop {
    /// What a task holds.
    type Handle: Drop;

    /// The filters that a handle stands for, the newest first.
    ghost filters_of: { Self → Self.Handle → List Filter };

    /// How many filters were loaded after the first.
    ghost loads_of: { Self → ℕ };

    /// The first filter of a container on this machine, which has load number 0, and its handle.
    fn first(
        alloc: Global,
        native: Arch,
        program: &Accepted<'_>,
    ) -> Result<(Self, Self::Handle), AllocError>
        ensures filters { IfOk result (λ r. filters_of r.0 r.1
            ≡ program_filter 0 (accepted_insns program.now) ∷ []) }
        ensures loads { IfOk result (λ r. loads_of r.0 ≡ 0) };

    /// Another handle of the same filters.
    fn copied(&self, alloc: Global, handle: &Self::Handle) -> Result<Self::Handle, AllocError>
        ensures { IfOk result (λ copy. filters_of self.now copy ≡ filters_of self.now handle.now) };

    /// So many handles of a handle's filters with a further one in front, which has the next load
    /// number.
    fn with_newer(
        &mut self,
        alloc: Global,
        handle: &Self::Handle,
        program: &Accepted<'_>,
        count: usize,
    ) -> Result<Vec<Self::Handle>, AllocError>
        requires size { length (accepted_insns program.now)
            + size_beside (filters_of self.old handle.now) ≤ 32768 }
        requires numbers { loads_of self.old < 2 ^ 32 - 1 }
        ensures handles { IfOk result (λ all. All (λ newer. filters_of self.new newer
            ≡ program_filter (loads_of self.old + 1) (accepted_insns program.now) ∷ filters_of self.old handle.now) all.items) }
        ensures count { IfOk result (λ all. vec_len all ≡ count) }
        ensures others { (other : _) → has_filter (filters_of self.old other) ≡ true
            → filters_of self.new other ≡ filters_of self.old other }
        ensures loads { IfOk result (λ all. loads_of self.new ≡ loads_of self.old + 1) }
        ensures err { OnErr result (loads_of self.new ≡ loads_of self.old) };

    /// How many filters were loaded after the first.
    fn loads(&self) -> u32
        ensures { result ≡ loads_of self.now };

    /// How many filters a handle stands for.
    fn len(&self, handle: &Self::Handle) -> u32
        ensures { result ≡ length (filters_of self.now handle.now) };

    /// For how many instructions a handle's filters count beside a further one.
    fn size(&self, handle: &Self::Handle) -> u32
        ensures size { result ≡ size_beside (filters_of self.now handle.now) }
        ensures small { result ≤ 32772 };

    /// The strictest verdict that a handle's filters give.
    fn verdict(&self, handle: &Self::Handle, rec: &Record) -> Word
        ensures { result ≡ strictest_of (map (λ f. f.judge.verdict rec.now) (filters_of self.now handle.now)) };

    /// The newest of a handle's filters whose verdict notifies a listener, by its load number.
    fn notifier(&self, handle: &Self::Handle, rec: &Record) -> Option<u32>
        ensures { result ≡ notifier rec.now (filters_of self.now handle.now) };

    /// Whether a handle's filters are what is left of another's after their newest are dropped, by
    /// their load numbers.
    fn is_oldest_part(&self, older: &Self::Handle, newer: &Self::Handle) -> bool
        ensures { result ≡ is_oldest_part (loads_in (filters_of self.now older.now))
            (loads_in (filters_of self.now newer.now)) };
}
