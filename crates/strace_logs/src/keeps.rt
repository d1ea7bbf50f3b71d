//! Calls of which the values of arguments are kept.
ghost use Rattle.std.specs.Prelude.{◌≡◌, ◌<◌, ◌%◌, ◌^◌};
ghost use Rattle.machines.specs.Arch.{token_of};
ghost use Rattle.strace_logs.specs.Kept as spec;

use crate::strace::{Call, machines_run};
use call_tables::{call_name, call_number};
use machines::Arch;
use widths::cut_bits;

/// A call of which the values of these arguments are kept.
#[derive(Clone, Copy)]
pub struct Keep<'a> {
    pub(crate) name: &'a str,
    pub(crate) places: [bool; 6],
}

// The place that a digit names.
fn place_of(digit: &str) -> Option<usize> {
    match digit.as_bytes() {
        [byte @ b'0'..=b'5'] => Some(usize::from(*byte - b'0')),
        _ => None,
    }
}

// The places that a list of digits names.
fn places_of(digits: &str) -> Option<[bool; 6]> {
    let mut places = [false; 6];
    for digit in digits.split(',') {
        let place = place_of(digit)?;
        if place < 6 {
            places[place] = true;
        }
    }
    Some(places)
}

/// Whether one of the machines has a call of the name.
pub(crate) fn is_known(machines: &[Arch], name: &str) -> bool {
    for arch in machines {
        if call_number(*arch, name).is_some() {
            return true;
        }
    }
    false
}

impl<'a> Keep<'a> {
    /// What a word asks for: the name of a call, a colon, and places of arguments, counted from 0, with commas between them.
    pub fn read(native: Arch, word: &'a str) -> Option<Keep<'a>> {
        let (name, digits) = word.split_once(':')?;
        if !is_known(machines_run(native), name) {
            return None;
        }
        let places = places_of(digits)?;
        Some(Keep { name, places })
    }
}

/// Which of those that are asked for a call is by its name.
pub(crate) fn keep_of(keeps: &[Keep<'_>], call: &Call<'_>) -> Option<usize> {
    let name = call_name(call.arch, call.nr)?;
    for (place, keep) in keeps.iter().enumerate() {
        if keep.name == name {
            return Some(place);
        }
    }
    None
}

/// Whether a name is that of a call of which values are kept.
pub(crate) fn is_kept(keeps: &[Keep<'_>], name: &str) -> bool {
    for keep in keeps {
        if keep.name == name {
            return true;
        }
    }
    false
}

/// An argument of which all bits are kept.
pub(crate) const WHOLE: u32 = 64;

// How many of the lowest bits of an argument are kept. It is those that are read, or all (64) if no more is compared. Of an
// argument that is not asked for it is 0.
fn bits_at(places: &[bool; 6], token: u32, nr: u32, place: usize) -> u32
    requires { place < 6 }
    ensures { result ≡ spec.bits_at places.now token nr place }
{
    if places[place] {
        return cut_bits(token, nr, place);
    }
    0
}

/// How many of the lowest bits are kept of each argument of a call.
pub(crate) fn bits_of(keep: &Keep<'_>, arch: Arch, nr: u32) -> [u32; 6]
    ensures { result ≡ spec.bits_of keep.now.places (token_of arch) nr }
{
    let places = &keep.places;
    let token = arch.token();
    [
        bits_at(places, token, nr, 0),
        bits_at(places, token, nr, 1),
        bits_at(places, token, nr, 2),
        bits_at(places, token, nr, 3),
        bits_at(places, token, nr, 4),
        bits_at(places, token, nr, 5),
    ]
}

/// So many of the lowest bits of a number.
pub(crate) fn low(value: u64, bits: u32) -> u64
    requires { bits < 65 }
    ensures { result ≡ value % 2 ^ bits }
{
    if bits >= WHOLE {
        return value;
    }
    value % (1 << bits)
}

/// The values of the arguments of which bits are kept, the others 0; none if the call lacks one of them.
pub(crate) fn values_of(bits: &[u32; 6], call: &Call<'_>) -> Option<[u64; 6]> {
    let mut values = [0; 6];
    for place in 0..6u8 {
        let at = usize::from(place);
        let bits = bits[at].min(WHOLE);
        if bits > 0 {
            values[at] = low(call.argument(place)?, bits);
        }
    }
    Some(values)
}
