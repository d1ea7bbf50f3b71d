//! Answers to questions of which too little may be known.
use profile::Cond;

/// The answer to a question of which too little may be known.
#[derive(Clone, Copy, Debug, PartialEq, Eq)]
pub enum Judged {
    Yes,
    No,
    /// Neither is known.
    Open,
}

/// How a rule bears on a verdict.
#[derive(Clone, Copy)]
pub(crate) enum Bearing {
    /// Each record matches the rule, which says the verdict.
    Settles,
    /// No record matches it, or it says the verdict.
    Agrees,
    /// Some record may match it, and it says another verdict.
    Differs,
}

/// What is known of a number: whether it is the call's, and whether the call's is another.
#[derive(Clone, Copy)]
pub(crate) struct Number {
    pub(crate) own: bool,
    pub(crate) other: bool,
}

/// What is asked of conditions.
#[derive(Clone, Copy, PartialEq, Eq)]
pub(crate) enum Asked {
    /// Whether all are yes.
    AllYes,
    /// Whether one is no.
    OneNo,
}

/// What was asked of conditions, of arguments that are narrow or are not, and whether it is so.
#[derive(Clone, Copy)]
pub(crate) struct Answered<'a> {
    pub(crate) asked: Asked,
    pub(crate) narrow: bool,
    pub(crate) conds: &'a [Cond],
    pub(crate) is_so: bool,
}
