//! How a call reads its arguments, by its token and number.
ghost use Rattle.std.specs.Prelude.{◌≡◌, ◌<◌};
ghost use Rattle.machines.specs.Numbers.{has_call};
ghost use Rattle.widths.specs.Reads as spec;

use crate::arguments::reading::Reading;
use crate::arguments::rows::of_name;
use call_tables::call_name;
use machines::{Arch, Family, is_narrow};

// How many bits an argument of a machine of 32 bits has.
const HALF: u32 = 32;

// Whether a call with a token and a number is a machine's.
fn has_call(arch: Arch, token: u32, nr: u32) -> bool
    ensures { result ≡ has_call token nr arch }
{
    if arch.token() != token {
        return false;
    }
    arch.has_number(nr)
}

// The machine of Linux that has a call with the token and the number.
fn owner_of(token: u32, nr: u32) -> Option<Arch>
    ensures { result ≡ spec.owner_of token nr }
{
    Family::Whole
        .machines()
        .iter()
        .copied()
        .find(|arch| has_call(*arch, token, nr))
}

// How a machine's call reads its arguments, if that is known.
fn on_machine(arch: Arch, nr: u32) -> Option<[Reading; 6]>
    ensures { result ≡ spec.on_machine arch nr }
{
    match call_name(arch, nr) {
        Some(name) => of_name(arch, name),
        None => None,
    }
}

/// How a call with a token and a number reads its arguments, if that is known.
#[tactic(auto, unfolding(crate::specs::Reads::readings))]
pub fn readings(token: u32, nr: u32) -> Option<[Reading; 6]>
    ensures { result ≡ spec.readings token nr }
{
    match owner_of(token, nr) {
        Some(arch) => on_machine(arch, nr),
        None => None,
    }
}

// How many of the lowest bits of an argument count as read, by what is known of its call.
fn bits_in(row: Option<[Reading; 6]>, index: usize) -> u32
    requires { index < 6 }
    ensures { result ≡ spec.bits_in row index }
{
    match row {
        Some(row) => row[index].bits(),
        None => 64,
    }
}

/// How many of the lowest bits of an argument are read, of the call with a token and a number.
#[tactic(auto, unfolding(crate::specs::Reads::read_bits))]
pub fn read_bits(token: u32, nr: u32, index: usize) -> u32
    requires { index < 6 }
    ensures { result ≡ spec.read_bits token nr index }
{
    let bits = bits_in(readings(token, nr), index);
    if is_narrow(token) {
        return bits.min(HALF);
    }
    bits
}

/// Whether all that is compared of an argument is read. Of machines of 32 bits the lower half is compared.
pub(crate) fn is_all_read(token: u32, nr: u32, index: usize) -> bool
    requires { index < 6 }
    ensures { result ≡ spec.is_all_read token nr index }
{
    if !is_narrow(token) {
        return false;
    }
    read_bits(token, nr, index) >= HALF
}

/// To how many bits an argument is cut: to those that are read, or not at all (64) where no more is compared.
pub fn cut_bits(token: u32, nr: u32, index: usize) -> u32
    requires { index < 6 }
    ensures { result ≡ spec.cut_bits token nr index }
{
    if is_all_read(token, nr, index) {
        return 64;
    }
    read_bits(token, nr, index)
}
