//! Values that nobody reads, passed over.
use crate::json_text::frames::DEEPEST;
use crate::json_text::known::may_be_large;
use json::{Reader, Token};

/// What may stand next.
#[derive(Clone, Copy, PartialEq, Eq)]
enum Awaited {
    /// A key of the innermost object, or its end.
    Key,
    /// The value behind a key, or the whole value.
    Member,
    /// A value of the innermost list, or its end.
    Item,
}

// What may stand next in an object or a list.
fn first_of(is_object: bool) -> Awaited {
    if is_object {
        Awaited::Key
    } else {
        Awaited::Item
    }
}

// A value as far as it was passed over. It has which of what is open in it are objects, the outermost first, and how many are
// open.
#[derive(Drop)]
struct Passed {
    are_objects: [bool; DEEPEST],
    depth: usize,
    awaited: Awaited,
}

impl Passed {
    fn new() -> Passed {
        Passed {
            are_objects: [false; DEEPEST],
            depth: 0,
            awaited: Awaited::Member,
        }
    }

    // A value has ended.
    #[inline(always)]
    fn end_value(&mut self) {
        let last = self.depth.wrapping_sub(1);
        self.awaited = match self.are_objects.get(last) {
            Some(is_object) => first_of(*is_object),
            None => Awaited::Member,
        };
    }

    // Passes over a key, unless none may stand here.
    #[inline(always)]
    fn key(&mut self) -> bool {
        let may_stand = self.awaited == Awaited::Key;
        self.awaited = Awaited::Member;
        may_stand
    }

    // Passes over a value that is no object and no list, unless none may stand here.
    #[inline(always)]
    fn single(&mut self) -> bool {
        let may_stand = self.awaited != Awaited::Key;
        self.end_value();
        may_stand
    }

    // Begins an object or a list, unless none may stand here or it lies too deep.
    #[inline(always)]
    fn begin(&mut self, is_object: bool, most: usize) -> bool {
        let may_stand = self.awaited != Awaited::Key && self.depth < most;
        if let Some(kind) = self.are_objects.get_mut(self.depth) {
            *kind = is_object;
        }
        self.depth = self.depth.saturating_add(1);
        self.awaited = first_of(is_object);
        may_stand
    }

    // Ends an object or a list, unless another is open.
    #[inline(always)]
    fn end(&mut self, is_object: bool) -> bool {
        let may_stand = self.awaited == first_of(is_object);
        self.depth = self.depth.saturating_sub(1);
        self.end_value();
        may_stand
    }

    // Passes over a token, unless it may not stand here or is left to a reader of values.
    #[inline(always)]
    fn take(&mut self, token: Token<'_>, most: usize) -> bool {
        match token {
            Token::Key(_) => self.key(),
            Token::BeginObject => self.begin(true, most),
            Token::BeginArray => self.begin(false, most),
            Token::EndObject => self.end(true),
            Token::EndArray => self.end(false),
            Token::Number(number) => self.single() && !may_be_large(number),
            Token::String(_) | Token::Bool(_) | Token::Null => self.single(),
            Token::Bad => false,
        }
    }
}

/// Passes over the value of a member that lies so deep in a text of so many bytes. False says that the text is given up.
pub(crate) fn skip_value(reader: &mut Reader<'_>, length: usize, depth: usize) -> bool {
    let most = DEEPEST.saturating_sub(depth);
    let mut passed = Passed::new();
    for _ in 0..length {
        let Some(token) = reader.next() else {
            return false;
        };
        if !passed.take(token, most) {
            return false;
        }
        if passed.depth == 0 {
            return true;
        }
    }
    false
}
