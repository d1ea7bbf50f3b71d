//! Room that serves one node after the other.
use crate::likely::Likely;
use cert_state::Room;

/// Room for what a node knows, and for which conditions decided rules at the nodes before.
#[derive(Drop)]
pub struct Scratch {
    pub(crate) room: Room,
    pub(crate) likely: Likely,
}

impl Scratch {
    /// Room for any node.
    pub fn new() -> Scratch {
        Scratch {
            room: Room::new(),
            likely: Likely::none(),
        }
    }
}
