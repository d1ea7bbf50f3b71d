//! A law of words.
ghost use Rattle.call_words.specs.Laws.{NumbersStay};

/// A word that is a number stands for itself.
pub fn numbers_stay()
    ensures { NumbersStay }
{}
