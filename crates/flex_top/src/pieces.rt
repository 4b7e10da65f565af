ghost use Rattle.std.specs.Prelude.{◌≡◌, length, IfOk};

use flex_base::{Failed, Outer};
use std::alloc::{AllocError, Global};
use std::marker::Model;
use tracer::Put;

// How many bytes a piece has, but for the last one.
const PIECE: usize = 65_536;

// How many bytes a line has at most.
const LINE: usize = 128;

/// The bytes of a text that wait to be written: at most a piece, and a line that goes past it. Its
/// memory is taken when it is made.
#[derive(Drop)]
pub struct Pieces {
    held: Vec<u8>,
    end: usize,
}

impl Model for Pieces {
    ghost use Rattle.std.specs.Prelude.{ℕ, ◌≡◌, ◌≤◌, List, take, vec_len};

    ghost Value = { List ℕ };

    ghost view = { λ p. take p.end p.held.items };

    ghost invariant = { λ p. (vec_len p.held ≡ 65664) × (p.end ≤ 65664) };
}

impl Put for Pieces {
    ghost use Rattle.std.specs.Prelude.{ℕ, List};

    ghost text = { λ pieces. pieces };

    ghost room = { 65664 };

    #[inline(always)]
    fn put(&mut self, bytes: &[u8]) {
        let end = self.end + bytes.len();
        self.held[self.end..end].copy_from_slice(bytes);
        self.end = end;
    }

    #[inline(always)]
    fn put_first(&mut self, bytes: &[u8], count: usize) {
        let from = self.end;
        self.held[from..from + 16].copy_from_slice(&bytes[..16]);
        self.end = from + count;
    }
}

impl Pieces {
    ghost use Rattle.std.specs.Prelude.{◌≡◌, ◌≤◌, ◌<◌, [], length, IfOk, OnOk, OnErr, IsErr};
    ghost use Rattle.flex_base.specs.Outside.{OnlyWrites};
    ghost use Rattle.flex_top.specs.Written.{Grows, Passes, PassesPart};

    /// Takes the memory for a piece and a line. The error is want of it.
    pub fn new(alloc: Global) -> Result<Pieces, AllocError>
        ensures { IfOk result (λ pieces. pieces ≡ []) }
    {
        Ok(Pieces {
            held: zeros(alloc, PIECE + LINE)?,
            end: 0,
        })
    }

    /// Lets go what waits.
    pub fn clear(&mut self)
        ensures { self.new ≡ [] }
    {
        self.end = 0;
    }

    /// Writes a piece to the file where one is full, and keeps what goes past it. Where that fails,
    /// the file has gained the first of the bytes that waited.
    #[inline(always)]
    pub fn write_full<O: Outer>(&mut self, outer: &mut O, name: &str) -> Result<(), Failed>
        ensures ok { OnOk result (Passes (O.outside outer.old) (O.outside outer.new) name.now
            self.old self.new []) }
        ensures err { OnErr result (PassesPart (O.outside outer.old) (O.outside outer.new) name.now self.old []) }
        ensures room { OnOk result (length self.new < 65536) }
        ensures frame { OnlyWrites (O.outside outer.old) (O.outside outer.new) (IsErr result) }
    {
        if self.end < PIECE {
            return Ok(());
        }
        self.write_piece(outer, name)
    }

    #[cold]
    fn write_piece<O: Outer>(&mut self, outer: &mut O, name: &str) -> Result<(), Failed>
        requires { 65536 ≤ length self.old }
        ensures ok { OnOk result (Passes (O.outside outer.old) (O.outside outer.new) name.now
            self.old self.new []) }
        ensures err { OnErr result (PassesPart (O.outside outer.old) (O.outside outer.new) name.now self.old []) }
        ensures room { OnOk result (length self.new < 65536) }
        ensures frame { OnlyWrites (O.outside outer.old) (O.outside outer.new) (IsErr result) }
    {
        match outer.add(name, &self.held[..PIECE]) {
            Ok(()) => {}
            Err(failed) => return Err(failed),
        }
        let past = self.end - PIECE;
        self.held.copy_within(PIECE..self.end, 0);
        self.end = past;
        Ok(())
    }

    /// Writes what waits, the last piece, if there is anything. Where that fails, the file has
    /// gained the first bytes of it.
    pub fn flush<O: Outer>(&mut self, outer: &mut O, name: &str) -> Result<(), Failed>
        ensures empty { self.new ≡ [] }
        ensures ok { OnOk result (Grows (O.outside outer.old) (O.outside outer.new) name.now self.old) }
        ensures err { OnErr result (PassesPart (O.outside outer.old) (O.outside outer.new) name.now self.old []) }
        ensures frame { OnlyWrites (O.outside outer.old) (O.outside outer.new) (IsErr result) }
    {
        if self.end == 0 {
            return Ok(());
        }
        let written = outer.add(name, &self.held[..self.end]);
        self.end = 0;
        written
    }
}

fn zeros(alloc: Global, size: usize) -> Result<Vec<u8>, AllocError>
    ensures { IfOk result (λ bytes. length bytes.items ≡ size) }
{
    vec![in alloc; 0; size]
}

#[cfg(test)]
mod tests;
