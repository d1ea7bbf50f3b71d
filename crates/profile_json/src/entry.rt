//! An entry of `syscalls`.
ghost use Rattle.std.specs.Prelude.{◌≡◌, true, map};
ghost use Rattle.profile.specs.Operator.{are_distinct};

use arrayvec::ArrayVec;
use call_record::Word;
use profile::Cond;

/// An entry: the calls that it names, the conditions of each of its rules, and their verdict.
#[derive(Drop)]
pub(crate) struct Entry<'a> {
    pub(crate) names: Vec<&'a str>,
    pub(crate) conds: ArrayVec<Cond, 6>,
    pub(crate) word: Word,
    ghost apart: { are_distinct (map (λ c. c.index) conds.items) ≡ true },
}
