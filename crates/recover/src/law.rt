//! Filters that are no bundle's.
ghost use Rattle.std.specs.Prelude.{ℕ, List};
ghost use Rattle.machines.specs.declared.arch.Arch.{Arch as TheArch};
ghost use Rattle.recover.specs.declared.unsaid.Shown.{Shown as TheShown};
ghost use Rattle.recover.specs.declared.unsaid.Unsaid.TheVariants as why;
ghost use Rattle.recover.specs.Recovered.{IsUnsayable};
ghost use Rattle.recover.specs.Unsaid.{IsUnsaid};

/// Three reasons for which no section is found are good for each: no bundle means what such a filter answers. These are a call of a machine
/// that none lists, a verdict that depends on the instruction pointer, and one that depends on the upper half of an argument of 32 bits.
pub fn such_filters_are_no_bundles()
    ensures machine { (native : TheArch) (filter : List ℕ) (one : TheShown) → IsUnsaid native filter (why.OtherMachine one)
        → IsUnsayable native filter }
    ensures pointer { (native : TheArch) (filter : List ℕ) (one other : TheShown) → IsUnsaid native filter (why.Pointer one other)
        → IsUnsayable native filter }
    ensures upper { (native : TheArch) (filter : List ℕ) (one other : TheShown) → IsUnsaid native filter (why.HighHalf one other)
        → IsUnsayable native filter }
{}
