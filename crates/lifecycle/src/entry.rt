//! What is kept of a container beside the kernel.

use cert_check::Checked;

/// How far a container has come without the kernel.
#[derive(Clone, Copy)]
pub(crate) enum Phase {
    /// Created, and not started.
    Made,
    /// Given to the kernel, which knows whether it runs.
    Started,
    /// Stopped before it was started.
    Ended,
}

#[derive(Clone, Copy)]
pub(crate) struct Entry<'a> {
    pub(crate) checked: Checked<'a>,
    pub(crate) phase: Phase,
}
