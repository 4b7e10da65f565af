ghost use Rattle.std.specs.Prelude.{◌≡◌, ◌≤◌, true};
ghost use Rattle.sha2.specs.Sha256.{sha256};
ghost use Rattle.flex_base.specs.Place.{in_ram};
ghost use Rattle.flex_base.specs.Setup.{Setup};
ghost use Rattle.flex_base.specs.Unsplit.{Machine};
ghost use Rattle.flex_base.specs.Word.{is_multiple};
ghost use Rattle.tracer.specs.Trace.{ram_bytes};
ghost use Rattle.flex_top.specs.Ram.{AreBanks, bytes_from};

use flex_base::RAM_BASE;
use mem_lines::Lines;
use sha2::{Digest, Sha256};

// How many bytes a line has.
const LINE: u64 = 64;

/// The SHA-256 of all bytes of RAM, of so many bytes, whose lines these banks hold.
pub(crate) fn ram_digest(banks: &[Lines], ram: u64) -> [u8; 32]
    requires size { ram ≤ 268435456 }
    requires lines { is_multiple ram 64 ≡ true }
    requires banks { (setup : Setup) × (u : Machine) × (setup.ram ≡ ram) × AreBanks setup u banks.now }
    ensures { (setup : Setup) (u : Machine) → setup.ram ≡ ram → AreBanks setup u banks.now → result ≡ sha256 (ram_bytes setup u) }
{
    let mut hasher = Sha256::new();
    for line in 0..ram / LINE {
        hasher.update(line_at(banks, RAM_BASE + LINE * line));
    }
    hasher.finalize()
}

// The bytes of the line that begins at this address of RAM. The lines are dealt to the banks in turn.
#[inline(always)]
fn line_at(banks: &[Lines], address: u64) -> &[u8]
    requires begins { is_multiple address 64 ≡ true }
    requires banks { (setup : Setup) × (u : Machine) × AreBanks setup u banks.now × (in_ram setup.ram address 64 ≡ true) }
    ensures { (setup : Setup) (u : Machine) → AreBanks setup u banks.now → in_ram setup.ram address 64 ≡ true
        → result.now ≡ bytes_from setup u address 64 }
{
    let bank = address / LINE % banks.len() as u64;
    banks[bank as usize].line(address)
}
