//! Call records with the bits at 0 that are not read.
ghost use Rattle.std.specs.Prelude.{◌≡◌, ◌<◌};
ghost use Rattle.call_record.specs.Record.{words};
ghost use Rattle.widths.specs.Alike as spec;

use crate::arguments::read_bits;
use crate::narrowing::patterns::power_of_two;
use call_record::Record;

// What is read of an argument.
fn read_of(call: &Record, index: usize) -> u64
    requires { index < 6 }
    ensures { result ≡ spec.read_of (words call.now) index }
{
    let bits = read_bits(call.arch, call.nr, index);
    let argument = call.args[index];
    if bits >= 64 {
        return argument;
    }
    argument % power_of_two(bits)
}

/// The record with the bits at 0 that are not read.
pub fn cleared(call: &Record) -> Record
    ensures { spec.IsCleared (words call.now) (words result) }
{
    Record {
        nr: call.nr,
        arch: call.arch,
        ip: call.ip,
        args: [
            read_of(call, 0),
            read_of(call, 1),
            read_of(call, 2),
            read_of(call, 3),
            read_of(call, 4),
            read_of(call, 5),
        ],
    }
}

/// A record with the bits at 0 that are not read is alike to it.
pub fn cleared_is_alike()
    ensures { spec.ClearedIsAlike }
{}
