//! What is proved of filters that are turned.
ghost use Rattle.std.specs.Prelude.{◌≡◌, true, List, ℕ};
ghost use Rattle.bpf_insn.specs.Bytes.{AreBytes};
ghost use Rattle.byte_order.specs.Turned.{MeansAsRead, MeansAsWritten, are_whole};

/// Filters that are read for a big-endian machine, and those that are written for it, mean there what is judged.
pub fn filters_mean_the_same()
    ensures read { (file : List ℕ) → AreBytes file → are_whole file ≡ true → MeansAsRead file }
    ensures written { (filter : List ℕ) → AreBytes filter → are_whole filter ≡ true → MeansAsWritten filter }
{}
