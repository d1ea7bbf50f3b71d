//! What a bundle holds, before its rules are made.
use crate::entry::Entry;
use call_record::Word;
use machines::Arch;

/// The default, the machines and the entries of a bundle.
#[derive(Drop)]
pub(crate) struct Contents<'a> {
    pub(crate) default_word: Word,
    /// The listed machines as they stand in the text.
    pub(crate) archs: Vec<Arch>,
    pub(crate) entries: Vec<Entry<'a>>,
}
