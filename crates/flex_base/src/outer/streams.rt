// All bytes of a reader, and all bytes to a writer.
ghost use Rattle.std.specs.Prelude.{◌≡◌, ◌≢◌, ℕ, ◌<◌, ◌≤◌, Err, IfOk, IfSome, OnOk, OnErr, length, take};
ghost use Rattle.std.specs.Io.KnownBytes.{Appends};
ghost use Rattle.flex_base.specs.Files.{AppendsPart};

use crate::outer::{Failed, TakeFault};
use std::alloc::Global;
use std::io;
use std::io::{ErrorKind, Read, Write};

/// All bytes that a reader has left, if they are no more than the limit.
///
/// It reads no more than one byte past the limit, so a `TooLong` counts the bytes up to that one. An
/// interrupted read is tried again.
#[tactic(auto, using(crate::proofs::KnownBytes::within_limit))]
pub(crate) fn read_whole<F: Read>(
    alloc: Global,
    reader: &mut F,
    limit: u64,
) -> Result<Vec<u8>, TakeFault>
    ensures all { IfOk result (λ v. IfSome (F.remaining reader.old) (λ left. v.items ≡ left)) }
    ensures within { IfOk result (λ v. length v.items ≤ limit) }
    ensures over { (n : ℕ) → result ≡ Err (TakeFault.TooLong n) → limit < n }
    ensures longer { (n : ℕ) → result ≡ Err (TakeFault.TooLong n)
        → IfSome (F.remaining reader.old) (λ left. limit < length left) }
{
    match read_up_to(alloc, reader, limit.saturating_add(1)) {
        Ok(bytes) => {
            let length = bytes.len() as u64;
            if length > limit {
                Err(TakeFault::TooLong(length))
            } else {
                Ok(bytes)
            }
        }
        Err(error) => Err(fault(error.kind())),
    }
}

// The bytes up to the reader's end, at most so many.
fn read_up_to<F: Read>(alloc: Global, reader: &mut F, most: u64) -> io::Result<Vec<u8>>
    ensures { IfOk result (λ v. IfSome (F.remaining reader.old) (λ left. v.items ≡ take most left)) }
{
    let mut bytes = Vec::new(alloc);
    Read::take(&mut *reader, most).read_to_end(&mut bytes)?;
    Ok(bytes)
}

fn fault(kind: ErrorKind) -> TakeFault
    ensures memory { kind ≡ ErrorKind.OutOfMemory → result ≡ TakeFault.OutOfMemory }
    ensures failed { kind ≢ ErrorKind.OutOfMemory → result ≡ TakeFault.Failed }
    ensures over { (n : ℕ) → result ≢ TakeFault.TooLong n }
{
    match kind {
        ErrorKind::OutOfMemory => TakeFault::OutOfMemory,
        _ => TakeFault::Failed,
    }
}

/// Writes all bytes. It fails where a write fails or takes none of the bytes that are left, and has
/// then written the first of them, maybe none. An interrupted write is tried again.
// `write_all` of std says nothing of the bytes after a failure.
pub fn write_whole<W: Write>(writer: &mut W, bytes: &[u8]) -> Result<(), Failed>
    ensures ok { OnOk result (Appends (W.contents writer.old) (W.contents writer.new) bytes.now) }
    ensures err { OnErr result (AppendsPart (W.contents writer.old) (W.contents writer.new) bytes.now) }
{
    let mut done = 0;
    'writes: for _ in 0..u64::MAX {
        if done == bytes.len() {
            return Ok(());
        }
        match writer.write(&bytes[done..]) {
            Ok(0) => return Err(Failed),
            Ok(count) => done += count,
            Err(error) => {
                if error.kind() != ErrorKind::Interrupted {
                    return Err(Failed);
                }
            }
        }
    }
    Err(Failed)
}
