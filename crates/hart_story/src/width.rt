// Values by their width.
ghost use Rattle.std.specs.Prelude.{◌≡◌, ◌*◌, ◌^◌, ◌<◌, ◌≤◌};
ghost use Rattle.flex_base.specs.Word.{low, sign_extend};
ghost use Rattle.flex_base.specs.Forms.{IsWidth};
ghost use Rattle.flex_base.specs.Story.{extended};

pub(crate) fn cut(width: u8, value: u64) -> u64
    ensures { IsWidth width → result ≡ low (8 * width) value }
{
    match width {
        1 => lowest(8, value),
        2 => lowest(16, value),
        4 => lowest(32, value),
        _ => value,
    }
}

fn lowest(bits: u32, value: u64) -> u64
    requires { bits < 64 }
    ensures { result ≡ low bits value }
{
    value & ((1 << bits) - 1)
}

// The value of so many bytes as a register holds it.
pub(crate) fn extended(signed: bool, width: u8, value: u64) -> u64
    requires { IsWidth width }
    ensures { result ≡ extended signed width value }
{
    if signed && width != 8 {
        sign_extended(8 * width as u32, cut(width, value))
    } else {
        value
    }
}

// The 64-bit value of a two's complement number of fewer bits.
fn sign_extended(bits: u32, value: u64) -> u64
    requires bits { (0 < bits) × (bits ≤ 32) }
    requires fits { value < 2 ^ bits }
    ensures { result ≡ sign_extend bits value }
{
    if value < 1 << (bits - 1) {
        value
    } else {
        value + (u64::MAX - ((1 << bits) - 1))
    }
}
