//! Where nodes lead.

use cert_form::Kind;

/// Stands for no node.
pub const NOBODY: u32 = u32::MAX;

/// The two that follow.
pub fn followers(kind: Kind) -> (u32, u32) {
    match kind {
        Kind::Step(first, second) | Kind::Split(_, _, first, second) => (first, second),
        Kind::Return | Kind::Dead => (NOBODY, NOBODY),
    }
}

/// A node of this kind that leads to two others.
pub fn leading_to(kind: Kind, first: u32, second: u32) -> Kind {
    match kind {
        Kind::Step(_, _) => Kind::Step(first, second),
        Kind::Split(one, other, _, _) => Kind::Split(one, other, first, second),
        Kind::Return | Kind::Dead => kind,
    }
}
