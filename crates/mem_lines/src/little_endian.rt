ghost use Rattle.std.specs.Prelude.{◌≡◌, ℕ, ◌+◌, ◌*◌, ◌^◌, ◌<◌, ◌≤◌, length, slice_index};
ghost use Rattle.flex_base.specs.Forms.{IsWidth};
ghost use Rattle.flex_base.specs.FlatMemory.{value_at, put};

// The little-endian value of 1, 2, 4 or 8 bytes.
pub(crate) fn load(bytes: &[u8], at: usize, width: u8) -> u64
    requires within { at + width ≤ length bytes.now }
    requires width { IsWidth width }
    ensures value { result ≡ value_at (λ i. slice_index bytes.now i) at width }
    ensures fits { result < 2 ^ (8 * width) }
{
    match width {
        1 => bytes[at] as u64,
        2 => load_half(bytes, at),
        4 => load_word(bytes, at),
        _ => load_double(bytes, at),
    }
}

fn load_half(bytes: &[u8], at: usize) -> u64
    requires { at + 2 ≤ length bytes.now }
    ensures value { result ≡ value_at (λ i. slice_index bytes.now i) at 2 }
    ensures fits { result < 2 ^ 16 }
{
    bytes[at] as u64 + bytes[at + 1] as u64 * 0x100
}

fn load_word(bytes: &[u8], at: usize) -> u64
    requires { at + 4 ≤ length bytes.now }
    ensures value { result ≡ value_at (λ i. slice_index bytes.now i) at 4 }
    ensures fits { result < 2 ^ 32 }
{
    load_half(bytes, at) + load_half(bytes, at + 2) * 0x1_0000
}

fn load_double(bytes: &[u8], at: usize) -> u64
    requires { at + 8 ≤ length bytes.now }
    ensures value { result ≡ value_at (λ i. slice_index bytes.now i) at 8 }
    ensures fits { result < 2 ^ 64 }
{
    load_word(bytes, at) + load_word(bytes, at + 4) * 0x1_0000_0000
}

// Writes the lowest 1, 2, 4 or 8 bytes of the value, little-endian.
pub(crate) fn store(bytes: &mut [u8], at: usize, width: u8, value: u64)
    requires within { at + width ≤ length bytes.old }
    requires width { IsWidth width }
    ensures { (i : ℕ) → slice_index bytes.new i ≡ put i (slice_index bytes.old i) at width value }
{
    match width {
        1 => store_byte(bytes, at, value),
        2 => store_half(bytes, at, value),
        4 => store_word(bytes, at, value),
        _ => store_double(bytes, at, value),
    }
}

fn store_byte(bytes: &mut [u8], at: usize, value: u64)
    requires { at < length bytes.old }
    ensures { (i : ℕ) → slice_index bytes.new i ≡ put i (slice_index bytes.old i) at 1 value }
{
    bytes[at] = (value % 0x100) as u8;
}

fn store_half(bytes: &mut [u8], at: usize, value: u64)
    requires { at + 2 ≤ length bytes.old }
    ensures { (i : ℕ) → slice_index bytes.new i ≡ put i (slice_index bytes.old i) at 2 value }
{
    store_byte(bytes, at, value);
    store_byte(bytes, at + 1, value / 0x100);
}

fn store_word(bytes: &mut [u8], at: usize, value: u64)
    requires { at + 4 ≤ length bytes.old }
    ensures { (i : ℕ) → slice_index bytes.new i ≡ put i (slice_index bytes.old i) at 4 value }
{
    store_half(bytes, at, value);
    store_half(bytes, at + 2, value / 0x1_0000);
}

fn store_double(bytes: &mut [u8], at: usize, value: u64)
    requires { at + 8 ≤ length bytes.old }
    ensures { (i : ℕ) → slice_index bytes.new i ≡ put i (slice_index bytes.old i) at 8 value }
{
    store_word(bytes, at, value);
    store_word(bytes, at + 4, value / 0x1_0000_0000);
}
