ghost use Rattle.std.specs.Prelude.{◌≡◌, ◌^◌, ◌<◌, ◌==◌, false};
ghost use Rattle.flex_base.specs.Word.{is_set};
ghost use Rattle.flex_base.specs.Causes.{MSI, MTI};
ghost use Rattle.flex_base.specs.Devices.{is_timer_pending, lines_of, is_interrupted, part, put_part};

use flex_base::HartDevice;

// Bits of mip and mie (Volume II, "Machine Interrupt Registers (mip and mie)").
const MSI_BIT: u64 = 1 << 3;

const MTI_BIT: u64 = 1 << 7;

const HALF: u64 = 1 << 32;

// The interrupt lines of a hart at this time.
pub(crate) fn lines(mtime: u64, own: &HartDevice) -> u64
    ensures { result ≡ lines_of mtime own.now }
{
    let software = if own.msip { MSI_BIT } else { 0 };
    let timer = if is_timer_pending(mtime, own) {
        MTI_BIT
    } else {
        0
    };
    software + timer
}

// Whether a line is on that is enabled in `mie`.
pub(crate) fn is_interrupted(mtime: u64, own: &HartDevice, mie: u64) -> bool
    ensures { result ≡ is_interrupted mtime own.now mie }
{
    own.msip && has_software_bit(mie) || is_timer_pending(mtime, own) && has_timer_bit(mie)
}

fn is_timer_pending(mtime: u64, own: &HartDevice) -> bool
    ensures { result ≡ is_timer_pending mtime own.now }
{
    own.mtimecmp <= mtime
}

fn has_software_bit(mie: u64) -> bool
    ensures { result ≡ is_set MSI mie }
{
    mie / MSI_BIT % 2 == 1
}

pub(crate) fn has_timer_bit(mie: u64) -> bool
    ensures { result ≡ is_set MTI mie }
{
    mie / MTI_BIT % 2 == 1
}

// What is read of an 8-byte register: the whole, or the half at the address.
pub(crate) fn read_part(address: u64, width: u8, value: u64) -> u64
    ensures value { result ≡ part address width value }
    ensures narrow { (width == 8) ≡ false → result < 2 ^ 32 }
{
    if width == 8 {
        value
    } else if address % 8 == 0 {
        value % HALF
    } else {
        value / HALF
    }
}

// What a write leaves of an 8-byte register.
pub(crate) fn write_part(address: u64, width: u8, old: u64, value: u64) -> u64
    ensures { result ≡ put_part address width old value }
{
    if width == 8 {
        value
    } else if address % 8 == 0 {
        old - old % HALF + value % HALF
    } else {
        old % HALF + HALF * (value % HALF)
    }
}
