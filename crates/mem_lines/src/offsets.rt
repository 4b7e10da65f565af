ghost use Rattle.std.specs.Prelude.{◌≡◌, ◌<◌, ◌≤◌, true};
ghost use Rattle.flex_base.specs.Place.{ram_base};
ghost use Rattle.mem_lines.specs.Bank.{offset};

use flex_base::RAM_BASE;

// Where the bank of an address holds its byte, of so many banks.
#[tactic(auto, unfolding(crate::specs::Bank::offset))]
pub(crate) fn offset(banks: u8, address: u64) -> usize
    requires banks { 0 < banks }
    requires above { ram_base ≤ address }
    ensures { result ≡ offset banks address }
{
    let offset = address - RAM_BASE;
    if banks == 1 {
        return offset as usize;
    }
    (offset / 64 / banks as u64 * 64 + offset % 64) as usize
}
