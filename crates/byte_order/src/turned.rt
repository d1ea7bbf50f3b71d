//! Whole filters.
ghost use Rattle.std.specs.Prelude.{◌≡◌, ◌%◌, IfOk, length, map};
ghost use Rattle.bpf_insn.specs.Bytes as little;
ghost use Rattle.byte_order.specs.Big as big;
ghost use Rattle.byte_order.specs.Turned.{big_filter, little_filter, other_half, read_as, written_as};

use crate::insns::{big_at, big_bytes_of, little_at, little_bytes_of, other_half};
use machines::Arch;
use std::alloc::{AllocError, Global};

// Writes the instructions of a big-endian machine's file, of whole instructions, as the others have them.
fn write_little(file: &[u8], filter: &mut [u8])
    requires whole { length file.now % 8 ≡ 0 }
    requires long { length filter.old ≡ length file.now }
    ensures { filter.new ≡ little.spelling (map other_half (big.insns_of file.now)) }
{
    for i in 0..file.len() / 8 {
        let insn = other_half(big_at(file, i));
        filter[8 * i..8 * i + 8].copy_from_slice(&little_bytes_of(&insn));
    }
}

// Writes the instructions of a filter, which are whole, as a big-endian machine has them.
fn write_big(filter: &[u8], file: &mut [u8])
    requires whole { length filter.now % 8 ≡ 0 }
    requires long { length file.old ≡ length filter.now }
    ensures { file.new ≡ big.spelling (map other_half (little.insns_of filter.now)) }
{
    for i in 0..filter.len() / 8 {
        let insn = other_half(little_at(filter, i));
        file[8 * i..8 * i + 8].copy_from_slice(&big_bytes_of(&insn));
    }
}

// The same bytes.
fn copied(alloc: Global, bytes: &[u8]) -> Result<Vec<u8>, AllocError>
    ensures { IfOk result (λ copy. copy.items ≡ bytes.now) }
{
    let mut copy = Vec::new(alloc);
    copy.extend_from_slice(bytes)?;
    Ok(copy)
}

// The filter of a big-endian machine's file. Bytes that are no whole instructions stay as they are.
fn little_filter(alloc: Global, file: &[u8]) -> Result<Vec<u8>, AllocError>
    ensures { IfOk result (λ filter. filter.items ≡ little_filter file.now) }
{
    if file.len() % 8 != 0 {
        return copied(alloc, file);
    }
    let mut filter = vec![in alloc; 0u8; file.len()]?;
    write_little(file, &mut filter);
    Ok(filter)
}

// The other way round.
fn big_filter(alloc: Global, filter: &[u8]) -> Result<Vec<u8>, AllocError>
    ensures { IfOk result (λ file. file.items ≡ big_filter filter.now) }
{
    if filter.len() % 8 != 0 {
        return copied(alloc, filter);
    }
    let mut file = vec![in alloc; 0u8; filter.len()]?;
    write_big(filter, &mut file);
    Ok(file)
}

/// The filter that a file has for a machine.
pub fn read_as(alloc: Global, native: Arch, file: &[u8]) -> Result<Vec<u8>, AllocError>
    ensures { IfOk result (λ filter. filter.items ≡ read_as native file.now) }
{
    if native.is_big_endian() {
        little_filter(alloc, file)
    } else {
        copied(alloc, file)
    }
}

/// The filters that files have for a machine.
pub fn each_read_as(
    alloc: Global,
    native: Arch,
    files: &[Vec<u8>],
) -> Result<Vec<Vec<u8>>, AllocError>
    ensures { IfOk result
        (λ filters. map (λ f. f.items) filters.items ≡ map (read_as native) (map (λ f. f.items) files.now)) }
{
    let mut filters = Vec::new(alloc);
    for file in files {
        filters.push(read_as(alloc, native, file)?)?;
    }
    Ok(filters)
}

/// The file that has a filter for a machine.
pub fn written_as(alloc: Global, native: Arch, filter: &[u8]) -> Result<Vec<u8>, AllocError>
    ensures { IfOk result (λ file. file.items ≡ written_as native filter.now) }
{
    if native.is_big_endian() {
        big_filter(alloc, filter)
    } else {
        copied(alloc, filter)
    }
}
