ghost use Rattle.std.specs.Prelude.{◌≡◌, ◌&&◌};
ghost use Rattle.std.specs.List.{list_all};
ghost use Rattle.flex_base.specs.Loaded.{image_fits, part_fits};
ghost use Rattle.flex_base.specs.Place.{in_ram};
ghost use Rattle.flex_base.specs.Word.{is_multiple};

use crate::settings::is_in_ram;
use std::marker::Model;

/// What a run begins with. The parts, each an address and its bytes, are written over zero RAM in
/// their order; the harts begin at the entry.
#[derive(Drop)]
pub struct Image {
    pub entry: u64,
    pub parts: Vec<(u64, Vec<u8>)>,
}

impl Model for Image {
    ghost use Rattle.std.specs.Prelude.{map};
    ghost use Rattle.flex_base.specs.Loaded.{Loaded};

    ghost Value = { Loaded };

    ghost view = { λ i. record { entry = i.entry; parts = map (λ part. (part.0, part.1.items)) i.parts.items } };
}

impl Image {
    /// Whether the entry is a multiple of 4 in RAM, and all bytes of the parts lie in RAM, of this
    /// size in bytes. A part without bytes fits anywhere.
    pub fn fits(&self, ram: u64) -> bool
        ensures { result ≡ image_fits ram self.now }
    {
        is_entry(self.entry, ram) && all_fit(&self.parts, ram)
    }
}

fn is_entry(address: u64, ram: u64) -> bool
    ensures { result ≡ is_multiple address 4 && in_ram ram address 1 }
{
    address % 4 == 0 && is_in_ram(ram, address, 1)
}

fn all_fit(parts: &[(u64, Vec<u8>)], ram: u64) -> bool
    ensures { result ≡ list_all (λ part. part_fits ram (part.0, part.1.items)) parts.now }
{
    parts
        .iter()
        .all(|(address, bytes)| is_within(*address, bytes, ram))
}

fn is_within(address: u64, bytes: &[u8], ram: u64) -> bool
    ensures { result ≡ part_fits ram (address, bytes.now) }
{
    bytes.is_empty() || is_in_ram(ram, address, bytes.len() as u64)
}
