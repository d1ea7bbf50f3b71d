//! Logs.

/// A log: the name of its file, and its bytes.
#[derive(Clone, Copy)]
pub struct Log<'a> {
    pub name: &'a str,
    pub text: &'a [u8],
}
