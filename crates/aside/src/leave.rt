//! Which calls are asked to be left aside.

/// Whether numbers may be left aside that no table has, and whether the calls of x32 may be.
#[derive(Clone, Copy, Debug)]
pub struct Leave {
    pub unnamed: bool,
    pub x32: bool,
}
