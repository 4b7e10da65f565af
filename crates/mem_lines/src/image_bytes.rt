ghost use Rattle.std.specs.Prelude.{◌≡◌, ℕ, ◌+◌, ◌*◌, ◌%◌, ◌<◌, ◌≤◌, true, length, slice_index, IfOk};
ghost use Rattle.std.specs.List.{fold, list_all};
ghost use Rattle.flex_base.specs.Loaded.{part_fits};
ghost use Rattle.flex_base.specs.Limits.{mebibyte};
ghost use Rattle.flex_base.specs.Word.{is_multiple};
ghost use Rattle.flex_base.specs.Place.{ram_base, in_ram};
ghost use Rattle.mem_lines.specs.Bank.{IsWhole, is_bank_count, bank_of, offset, with_part};

use crate::offsets::offset;
use std::alloc::{AllocError, Global};
use std::cmp::min;

// This bank's bytes of the parts, written over zeros.
pub(crate) fn bank_bytes(
    alloc: Global,
    ram: u64,
    banks: u8,
    bank: u8,
    parts: &[(u64, Vec<u8>)],
) -> Result<Vec<u8>, AllocError>
    requires banks { is_bank_count banks ≡ true }
    requires mebibytes { is_multiple ram mebibyte ≡ true }
    requires small { ram ≤ 256 * mebibyte }
    requires fit { list_all (λ part. part_fits ram (part.0, part.1.items)) parts.now ≡ true }
    ensures whole { IfOk result (λ bytes. IsWhole ram banks bytes.items) }
    ensures each { IfOk result (λ bytes. (a : ℕ) → in_ram ram a 1 ≡ true → bank_of banks a ≡ bank
        → slice_index bytes.items (offset banks a)
        ≡ fold (λ old part. with_part a old (part.0, part.1.items)) 0 parts.now) }
{
    let mut bytes = zeros(alloc, ram, banks)?;
    write_parts(&mut bytes, banks, bank, parts);
    Ok(bytes)
}

// As many zeros as a bank has bytes.
fn zeros(alloc: Global, ram: u64, banks: u8) -> Result<Vec<u8>, AllocError>
    requires banks { is_bank_count banks ≡ true }
    requires mebibytes { is_multiple ram mebibyte ≡ true }
    requires small { ram ≤ 256 * mebibyte }
    ensures whole { IfOk result (λ bytes. IsWhole ram banks bytes.items) }
    ensures zeros { IfOk result (λ bytes. (i : ℕ) → slice_index bytes.items i ≡ 0) }
{
    let bytes = vec![in alloc; 0; (ram / banks as u64) as usize]?;
    Ok(bytes)
}

// Writes the bytes of the parts that are this bank's, one part after another.
pub(crate) fn write_parts(bytes: &mut [u8], banks: u8, bank: u8, parts: &[(u64, Vec<u8>)])
    requires fit { (ram : ℕ) × IsWhole ram banks bytes.old
        × (list_all (λ part. part_fits ram (part.0, part.1.items)) parts.now ≡ true) }
    ensures { (a : ℕ) → ram_base ≤ a → bank_of banks a ≡ bank
        → slice_index bytes.new (offset banks a)
        ≡ fold (λ old part. with_part a old (part.0, part.1.items)) (slice_index bytes.old
        (offset banks a)) parts.now }
{
    for (address, part) in parts {
        write_part(bytes, banks, bank, *address, part);
    }
}

// Writes the bytes of a part that are this bank's, a line at a time.
fn write_part(bytes: &mut [u8], banks: u8, bank: u8, address: u64, part: &[u8])
    requires fits { (ram : ℕ) × IsWhole ram banks bytes.old × (part_fits ram (address, part.now) ≡ true) }
    ensures { (a : ℕ) → ram_base ≤ a → bank_of banks a ≡ bank
        → slice_index bytes.new (offset banks a)
        ≡ with_part a (slice_index bytes.old (offset banks a)) (address, part.now) }
{
    let mut done = 0;
    while done < part.len() {
        let here = address + done as u64;
        let count = within_line(here, part.len() - done);
        if here / 64 % banks as u64 == bank as u64 {
            write_at(bytes, offset(banks, here), &part[done..done + count]);
        }
        done += count;
    }
}

// How many of so many bytes, from this address on, lie in its line.
fn within_line(address: u64, count: usize) -> usize
    ensures line { address % 64 + result ≤ 64 }
    ensures few { result ≤ count }
    ensures some { 0 < count → 0 < result }
{
    min((64 - address % 64) as usize, count)
}

// Writes a part over the bytes from this one on.
fn write_at(bytes: &mut [u8], at: usize, part: &[u8])
    requires { at + length part.now ≤ length bytes.old }
    ensures { (i : ℕ) → slice_index bytes.new i ≡ with_part i (slice_index bytes.old i) (at, part.now) }
{
    bytes[at..at + part.len()].copy_from_slice(part);
}
