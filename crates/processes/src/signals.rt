//! Signals, by their numbers (signal(7)).
ghost use Rattle.std.specs.Prelude.{◌≡◌};
ghost use Rattle.processes.specs.Kernel.{is_fatal};

/// The greatest number of a signal (SIGRTMAX).
pub const LAST_SIGNAL: u64 = 64;

/// Whether a signal ends its target: 9 (SIGKILL) and 15 (SIGTERM) do.
pub fn is_fatal(sig: u64) -> bool
    ensures { result ≡ is_fatal sig }
{
    sig == 9 || sig == 15
}
