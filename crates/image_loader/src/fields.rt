ghost use Rattle.std.specs.Prelude.{◌≡◌, ◌+◌, ◌≤◌, length};
ghost use Rattle.image_loader.specs.Headers.{little_endian};

// The little-endian fields of a file, at an offset.

pub(crate) fn u16_at(file: &[u8], at: usize) -> u16
    requires { at + 2 ≤ length file.now }
    ensures { result ≡ little_endian file.now at 2 }
{
    u16::from_le_bytes([file[at], file[at + 1]])
}

pub(crate) fn u32_at(file: &[u8], at: usize) -> u32
    requires { at + 4 ≤ length file.now }
    ensures { result ≡ little_endian file.now at 4 }
{
    u16_at(file, at) as u32 + u16_at(file, at + 2) as u32 * 0x1_0000
}

pub(crate) fn u64_at(file: &[u8], at: usize) -> u64
    requires { at + 8 ≤ length file.now }
    ensures { result ≡ little_endian file.now at 8 }
{
    u32_at(file, at) as u64 + u32_at(file, at + 4) as u64 * 0x1_0000_0000
}
