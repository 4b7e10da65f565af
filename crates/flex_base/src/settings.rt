ghost use Rattle.std.specs.Prelude.{◌≡◌, ◌+◌, ◌*◌, ◌^◌, ◌<◌};
ghost use Rattle.std.specs.List.{list_any};
ghost use Rattle.flex_base.specs.Place.{in_ram, place_of, is_among, registers, device_registers};
ghost use Rattle.flex_base.specs.Limits.{is_lawful};

/// The first address of RAM.
pub const RAM_BASE: u64 = 0x8000_0000;

/// The address of SiFive's test finisher, by which a program ends the run.
pub const FINISHER: u64 = 0x0010_0000;

/// The first address of the software interrupt bits of a core-local interruptor (CLINT), 4 bytes for
/// each hart.
pub const MSIP: u64 = 0x0200_0000;

/// The first address of the timer compare values of a CLINT, 8 bytes for each hart (Volume II,
/// "Machine Timer Registers (mtime and mtimecmp)").
pub const MTIMECMP: u64 = 0x0200_4000;

/// The address of the time of a CLINT, 8 bytes.
pub const MTIME: u64 = 0x0200_bff8;

/// The address of the first of a 16550 UART's eight registers: the receiver buffer when it is read,
/// the transmitter holding register when it is written.
pub const UART: u64 = 0x1000_0000;

/// The address of the UART's line status register.
pub const UART_LSR: u64 = 0x1000_0005;

/// The size of a run.
#[derive(Clone, Copy, Debug, PartialEq, Eq)]
pub struct Settings {
    /// How many harts there are, 1 to 32.
    pub harts: u8,
    /// The size of RAM in bytes, 1 to 256 MiB in whole MiB.
    pub ram: u64,
    /// How many ends each hart may make, 1 to 2^32.
    pub budget: u64,
}

/// What places there are: RAM from `RAM_BASE` up, and the device registers.
#[derive(Clone, Copy, Debug, PartialEq, Eq)]
pub struct Layout {
    pub harts: u8,
    /// The size of RAM in bytes.
    pub ram: u64,
}

/// What stands at an address.
#[derive(Clone, Copy, Debug, PartialEq, Eq)]
pub enum Place {
    Ram,
    Device,
    Nowhere,
}

const MEBIBYTE: u64 = 1_048_576;

impl Settings {
    /// Whether harts, RAM and budget are within their limits.
    pub fn lawful(&self) -> bool
        ensures { result ≡ is_lawful self.now }
    {
        1 <= self.harts
            && self.harts <= 32
            && MEBIBYTE <= self.ram
            && self.ram <= 256 * MEBIBYTE
            && self.ram % MEBIBYTE == 0
            && 1 <= self.budget
            && self.budget <= 0x1_0000_0000
    }
}

impl Layout {
    /// What stands in the `width` bytes from the address up. A device register stands only where
    /// both address and width are its own.
    pub fn place(&self, address: u64, width: u8) -> Place
        ensures { result ≡ place_of self.now.harts self.now.ram address width }
    {
        if is_in_ram(self.ram, address, width as u64) {
            Place::Ram
        } else if is_device(self.harts, address, width) {
            Place::Device
        } else {
            Place::Nowhere
        }
    }
}

pub(crate) fn is_in_ram(ram: u64, address: u64, width: u64) -> bool
    ensures { result ≡ in_ram ram address width }
{
    if address < RAM_BASE {
        return false;
    }
    let offset = address - RAM_BASE;
    offset <= ram && width <= ram - offset
}

// The device registers, by the memory map.
fn is_device(harts: u8, address: u64, width: u8) -> bool
    ensures { result ≡ list_any (is_among address width) (device_registers harts) }
{
    let harts = harts as u64;
    is_register(address, width, FINISHER, 4, 1)
        || is_register(address, width, MSIP, 4, harts)
        || is_register(address, width, MTIMECMP, 8, harts)
        || is_register(address, width, MTIMECMP, 4, 2 * harts)
        || is_register(address, width, MTIME, 8, 1)
        || is_register(address, width, MTIME, 4, 2)
        || is_register(address, width, UART, 1, 8)
}

// Whether the address is one of `count` registers of `size` bytes, side by side from `base`.
fn is_register(address: u64, width: u8, base: u64, size: u8, count: u64) -> bool
    requires size { 0 < size }
    requires small { base + size * count < 2 ^ 64 }
    ensures { result ≡ is_among address width (registers base size count) }
{
    let size_of = size as u64;
    width == size
        && base <= address
        && address < base + size_of * count
        && (address - base) % size_of == 0
}
