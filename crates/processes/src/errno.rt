//! Errors that calls answer (errno.h).

/// No such process.
pub(crate) const ESRCH: u16 = 3;

/// Try again.
pub(crate) const EAGAIN: u16 = 11;

/// Out of memory.
pub(crate) const ENOMEM: u16 = 12;

/// Bad address.
pub(crate) const EFAULT: u16 = 14;

/// Busy.
pub(crate) const EBUSY: u16 = 16;

/// Invalid argument.
pub(crate) const EINVAL: u16 = 22;
