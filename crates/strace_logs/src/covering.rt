//! Whether a call is one of those that were gathered.
ghost use Rattle.std.specs.Prelude.{◌≡◌, ◌<◌, ◌%◌, ◌^◌, IsTrue, slice_index};
ghost use Rattle.strace_logs.specs.Taken.{Agree, Covers, IsNoted};

use crate::calls::Seen;
use crate::keeps::{WHOLE, low};
use crate::strace::Call;
use machines::Arch;

// Whether a number is a value in so many of the lowest bits.
fn agree_in(bits: u32, value: u64, number: u64) -> bool
    ensures { IsTrue result → number % 2 ^ bits ≡ value % 2 ^ bits }
{
    if bits >= WHOLE {
        return number == value;
    }
    low(number, bits) == low(value, bits)
}

// Whether arguments are the values in so many of their lowest bits.
fn agree(bits: &[u32; 6], values: &[u64; 6], args: &[u64; 6]) -> bool
    ensures { IsTrue result → Agree bits.now values.now args.now }
{
    for place in 0..6usize {
        if !agree_in(bits[place], values[place], args[place]) {
            return false;
        }
    }
    true
}

fn is_same_machine(a: Arch, b: Arch) -> bool
    ensures { IsTrue result → a ≡ b }
{
    a == b
}

/// Whether a call is one of these.
pub(crate) fn covers(seen: &Seen, call: &Call<'_>) -> bool
    ensures { IsTrue result → Covers seen.now (call.now.arch, call.now.nr, call.now.args) }
{
    if call.nr != seen.nr {
        return false;
    }
    if !is_same_machine(call.arch, seen.arch) {
        return false;
    }
    agree(&seen.bits, &seen.values, &call.args)
}

/// The calls of a call's number on its machine, whatever their arguments.
pub(crate) fn whole_of(call: &Call<'_>) -> Seen
    ensures { Covers result (call.now.arch, call.now.nr, call.now.args) }
{
    Seen {
        arch: call.arch,
        nr: call.nr,
        bits: [0; 6],
        values: [0; 6],
    }
}

/// What is gathered of a call: these calls, if it is one of them.
pub(crate) fn fitting(new: Seen, call: &Call<'_>) -> Seen
    ensures { Covers result (call.now.arch, call.now.nr, call.now.args) }
{
    if covers(&new, call) {
        return new;
    }
    whole_of(call)
}

// Whether a call is one of these, and so many bits of the arguments tell them.
fn is_noted_by(seen: &Seen, bits: &[u32; 6], call: &Call<'_>) -> bool
    ensures { IsTrue result → Covers seen.now (call.now.arch, call.now.nr, call.now.args) }
{
    if !covers(seen, call) {
        return false;
    }
    seen.bits == *bits
}

/// Whether a call was gathered by so many bits of its arguments.
pub(crate) fn is_noted(seen: &[Seen], bits: &[u32; 6], call: &Call<'_>) -> bool
    ensures { IsTrue result → IsNoted seen.now (call.now.arch, call.now.nr, call.now.args) }
{
    for one in seen {
        if is_noted_by(one, bits, call) {
            return true;
        }
    }
    false
}
