//! Names and numbers of calls.
ghost use Rattle.std.specs.Prelude.{◌≡◌, ◌≤◌, ◌↔◌, ◌⊎◌, None, take, length};
ghost use Rattle.std.specs.Str.{IsUtf8};
ghost use Rattle.filter_c.specs.Machine as spec;
ghost use Rattle.filter_c.specs.Room.{LacksRoom};
ghost use Rattle.filter_c.specs.Calls.{HasNumber, HasNoNumber, HasName, HasNoName};

use crate::added::machine_with;
use crate::answers::written;
use crate::status::{DONE, NO_CALL, NO_NATIVE, NO_ROOM, NO_TEXT};
use call_tables::{call_name, call_number};

/// Writes the number of a machine's call into `number`, and returns 0. Returns 15 if the machine has no such call.
/// Returns 4 if there is no such machine, and 16 if the name is no UTF-8.
#[unsafe(no_mangle)]
pub extern "C" fn ccell_call_number(machine: u32, name: &[u8], number: &mut u32) -> u32
    ensures done { result ≡ 0 → HasNumber machine name.now number.new }
    ensures none { result ≡ 15 → HasNoNumber machine name.now }
    ensures machine { (result ≡ 4) ↔ (spec.machine_with machine ≡ None) }
    ensures text { result ≡ 16 → ¬ IsUtf8 name.now }
    ensures unwritten { 2 ≤ result → number.new ≡ number.old }
    ensures statuses { (result ≡ 0) ⊎ ((result ≡ 4) ⊎ ((result ≡ 15) ⊎ (result ≡ 16))) }
{
    let Some(arch) = machine_with(machine) else {
        return NO_NATIVE;
    };
    let Ok(text) = std::str::from_utf8(name) else {
        return NO_TEXT;
    };
    match call_number(arch, text) {
        Some(found) => {
            *number = found;
            DONE
        }
        None => NO_CALL,
    }
}

/// Writes the name of a machine's call into `out`, and its length into `count`, and returns 0. Returns 15 if the machine has
/// no such call, and 4 if there is no such machine. Returns 2 if there is no room, and `count` is how much is wanted.
#[unsafe(no_mangle)]
pub extern "C" fn ccell_call_name(
    machine: u32,
    number: u32,
    out: &mut [u8],
    count: &mut usize,
) -> u32
    ensures done { result ≡ 0 → HasName machine number (take count.new out.new) }
    ensures none { result ≡ 15 → HasNoName machine number }
    ensures machine { (result ≡ 4) ↔ (spec.machine_with machine ≡ None) }
    ensures room { result ≡ 2 → LacksRoom (HasName machine number) (length out.old) count.new }
    ensures within { result ≡ 0 → count.new ≤ length out.old }
    ensures unwritten { 2 ≤ result → out.new ≡ out.old }
    ensures statuses { (result ≡ 0) ⊎ ((result ≡ 2) ⊎ ((result ≡ 4) ⊎ (result ≡ 15))) }
{
    let Some(arch) = machine_with(machine) else {
        return NO_NATIVE;
    };
    let Some(name) = call_name(arch, number) else {
        return NO_CALL;
    };
    if written(name.as_bytes(), out, count) {
        DONE
    } else {
        NO_ROOM
    }
}
