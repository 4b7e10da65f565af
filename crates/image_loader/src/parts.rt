ghost use Rattle.std.specs.Prelude.{◌≡◌, ℕ, ◌-◌, ◌^◌, ◌<◌, ◌≤◌, true, map, replicate, ◌++◌, IfOk, [], ◌∷◌, length, OnOk};
ghost use Rattle.flex_base.specs.Place.{in_ram};
ghost use Rattle.image_loader.specs.Laying.{AreSameBytes, AreInRam};
ghost use Rattle.image_loader.specs.Loading.{filled_up};

use flex_base::RAM_BASE;
use std::alloc::{AllocError, Global};
use std::marker::Model;

// The parts of an image, laid one over another from zero RAM on.
#[derive(Drop)]
pub(crate) struct Parts {
    list: Vec<(u64, Vec<u8>)>,

    // So many bytes from the beginning of RAM hold all that may be other than zero.
    filled: u64,
}

impl Model for Parts {
    ghost use Rattle.std.specs.Prelude.{ℕ, List, map};
    ghost use Rattle.image_loader.specs.Laying.{IsZeroAbove};

    ghost Value = { List (ℕ × List ℕ) };

    ghost view = { λ p. map (λ part. (part.0, part.1.items)) p.list.items };

    ghost invariant = { λ p. IsZeroAbove p.filled (map (λ part. (part.0, part.1.items)) p.list.items) };
}

impl Parts {
    pub(crate) fn new(alloc: Global) -> Parts
        ensures { result ≡ [] }
    {
        Parts {
            list: Vec::new(alloc),
            filled: 0,
        }
    }

    // Lays a segment of this size over the parts: the bytes, and then zeros.
    //
    // The bytes are copied once. Of the zeros only those are held that an earlier part may lie
    // below.
    pub(crate) fn lay(
        &mut self,
        alloc: Global,
        address: u64,
        bytes: &[u8],
        size: u64,
    ) -> Result<(), AllocError>
        requires file { length bytes.now ≤ size }
        requires inside { (ram : ℕ) × (ram < 2 ^ 64) × (in_ram ram address size ≡ true) }
        ensures bytes { OnOk result (AreSameBytes self.new (self.old ++ filled_up address bytes.now size ∷ [])) }
        ensures fit { (ram : ℕ) → in_ram ram address size ≡ true → AreInRam ram self.old
            → OnOk result (AreInRam ram self.new) }
    {
        let offset = address - RAM_BASE;
        let below = size.min(self.filled.saturating_sub(offset));
        let held = bytes.len().max(below as usize);
        let part = padded(alloc, bytes, held)?;
        self.list.push((address, part))?;
        if self.filled <= offset + size {
            self.filled = offset + bytes.len() as u64;
        }
        Ok(())
    }

    pub(crate) fn into_list(self) -> Vec<(u64, Vec<u8>)>
        ensures { map (λ part. (part.0, part.1.items)) result.items ≡ self }
    {
        let Parts { list, filled: _ } = self;
        list
    }
}

// A copy of the bytes, with zeros up to this length.
fn padded(alloc: Global, bytes: &[u8], held: usize) -> Result<Vec<u8>, AllocError>
    requires { length bytes.now ≤ held }
    ensures { IfOk result (λ part. part.items ≡ bytes.now ++ replicate (held - length bytes.now) 0) }
{
    let mut part = Vec::with_capacity(alloc, held)?;
    part.extend_from_slice(bytes)?;
    part.resize(held, 0)?;
    Ok(part)
}
