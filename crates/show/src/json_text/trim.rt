//! A text without the members that nobody reads.
use crate::json_text::fault::point_of;
use crate::json_text::frames::Frames;
use crate::json_text::known::{may_be_large, past_blanks, place_of};
use crate::json_text::skip::skip_value;
use json::{Reader, Scratch, Token, Writer, is_number};
use std::alloc::{AllocError, Global};

/// A key that stands twice in one object: the place of its member, and the line and the column of each.
#[derive(Drop)]
pub struct Doubled {
    pub place: String,
    pub first: (usize, usize),
    pub second: (usize, usize),
}

/// A text with 0 for the members under keys that are not read. Also the first key that is read and stands twice in one object.
#[derive(Drop)]
pub struct Trimmed {
    pub text: Vec<u8>,
    pub doubled: Option<Doubled>,
}

// The text as far as it was read.
#[derive(Drop)]
struct Trimmer<'a> {
    frames: Frames<'a>,
    out: Writer,
    doubled: Option<Doubled>,
}

// What is to be done behind a token.
enum Next {
    Read,
    Skip,
    GiveUp,
}

// Reads on, unless what was read may not stand there.
fn read_on(may_stand: bool) -> Next {
    if may_stand { Next::Read } else { Next::GiveUp }
}

impl<'a> Trimmer<'a> {
    fn new(alloc: Global) -> Trimmer<'a> {
        Trimmer {
            frames: Frames::new(alloc),
            out: Writer::new(Vec::new(alloc)),
            doubled: None,
        }
    }

    // Keeps in mind a key that is read, and the first that stands twice.
    fn keep_key(
        &mut self,
        alloc: Global,
        text: &[u8],
        key: usize,
        at: usize,
    ) -> Result<(), AllocError> {
        let at = past_blanks(text, at);
        let Some(first) = self.frames.seen_at(key) else {
            return self.frames.keep_seen(key, at);
        };
        if self.doubled.is_none() {
            self.doubled = Some(Doubled {
                place: self.frames.place(alloc)?,
                first: point_of(text, first),
                second: point_of(text, at),
            });
        }
        Ok(())
    }

    // Reads a key, and writes it. If it is none of those that are read, a 0 is written behind it, and its value is passed over.
    fn take_key(
        &mut self,
        alloc: Global,
        (text, at): (&[u8], usize),
        keys: &[&str],
        key: &'a str,
    ) -> Result<Next, AllocError> {
        if !self.frames.take_key(key) {
            return Ok(Next::GiveUp);
        }
        self.out.key(key)?;
        match place_of(keys, key) {
            Some(place) => {
                self.keep_key(alloc, text, place, at)?;
                Ok(Next::Read)
            }
            None => {
                self.out.u64(0)?;
                Ok(Next::Skip)
            }
        }
    }

    // Begins an object or a list.
    fn begin(&mut self, is_object: bool) -> Result<bool, AllocError> {
        if !self.frames.take_value() {
            return Ok(false);
        }
        if is_object {
            self.out.begin_object()?;
        } else {
            self.out.begin_array()?;
        }
        self.frames.begin(is_object)
    }

    // Ends an object or a list.
    fn end(&mut self, is_object: bool) -> Result<bool, AllocError> {
        if !self.frames.end(is_object) {
            return Ok(false);
        }
        if is_object {
            self.out.end_object()?;
        } else {
            self.out.end_array()?;
        }
        Ok(true)
    }

    fn text(&mut self, text: &str) -> Result<bool, AllocError> {
        self.out.string(text)?;
        Ok(self.frames.take_value())
    }

    // A number that may be more than a reader takes is left to that reader.
    fn number(&mut self, number: &str) -> Result<bool, AllocError> {
        if may_be_large(number) || !is_number(number) {
            return Ok(false);
        }
        self.out.number(number)?;
        Ok(self.frames.take_value())
    }

    fn boolean(&mut self, value: bool) -> Result<bool, AllocError> {
        self.out.boolean(value)?;
        Ok(self.frames.take_value())
    }

    fn null(&mut self) -> Result<bool, AllocError> {
        self.out.null()?;
        Ok(self.frames.take_value())
    }

    // Reads a token that is no key, unless it may not stand here.
    fn take_other(&mut self, token: Token<'_>) -> Result<bool, AllocError> {
        match token {
            Token::BeginObject => self.begin(true),
            Token::EndObject => self.end(true),
            Token::BeginArray => self.begin(false),
            Token::EndArray => self.end(false),
            Token::String(text) => self.text(text),
            Token::Bool(value) => self.boolean(value),
            Token::Null => self.null(),
            Token::Number(number) => self.number(number),
            Token::Key(_) | Token::Bad => Ok(false),
        }
    }

    // Reads a token, which is known to be printable.
    fn take(
        &mut self,
        alloc: Global,
        place: (&[u8], usize),
        keys: &[&str],
        token: Token<'a>,
    ) -> Result<Next, AllocError> {
        if let Token::Key(key) = token {
            return self.take_key(alloc, place, keys, key);
        }
        let may_stand = self.take_other(token)?;
        Ok(read_on(may_stand))
    }

    // Passes over the value of a member, if that is to be done.
    fn skip(&mut self, reader: &mut Reader<'_>, length: usize, next: Next) -> bool {
        match next {
            Next::Read => true,
            Next::GiveUp => false,
            Next::Skip => {
                self.frames.take_value() && skip_value(reader, length, self.frames.depth())
            }
        }
    }
}

// The text as it was read to its end, unless it is given up.
fn read<'a>(
    alloc: Global,
    text: &[u8],
    keys: &[&str],
    mut reader: Reader<'a>,
) -> Result<Option<Trimmer<'a>>, AllocError> {
    let mut trimmer = Trimmer::new(alloc);
    for _ in 0..text.len() {
        let at = reader.offset();
        let Some(token) = reader.next() else {
            break;
        };
        let next = trimmer.take(alloc, (text, at), keys, token)?;
        if !trimmer.skip(&mut reader, text.len(), next) {
            return Ok(None);
        }
    }
    Ok(Some(trimmer))
}

// What was read, if it is one whole value.
fn finish(trimmer: Trimmer<'_>) -> Option<Trimmed> {
    if !trimmer.frames.is_whole() {
        return None;
    }
    Some(Trimmed {
        text: trimmer.out.into_inner(),
        doubled: trimmer.doubled,
    })
}

// A text with 0 for each member whose key is none of these, if it is one whole value.
fn trimmed_text(alloc: Global, text: &str, keys: &[&str]) -> Result<Option<Trimmed>, AllocError> {
    let mut scratch = Scratch::new(alloc);
    let reader = Reader::new(text, &mut scratch)?;
    match read(alloc, text.as_bytes(), keys, reader)? {
        Some(trimmer) => Ok(finish(trimmer)),
        None => Ok(None),
    }
}

/// A JSON text with 0 for each member whose key is none of these, in whatever object it stands. `None` is told of what is no JSON,
/// and of some texts that are: a reader of values decides.
pub fn without_unread(
    alloc: Global,
    text: &[u8],
    keys: &[&str],
) -> Result<Option<Trimmed>, AllocError> {
    match str::from_utf8(text) {
        Ok(text) => trimmed_text(alloc, text, keys),
        Err(_) => Ok(None),
    }
}
