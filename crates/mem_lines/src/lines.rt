ghost use Rattle.std.specs.Prelude.{◌≡◌, ℕ, ◌+◌, ◌*◌, ◌^◌, ◌<◌, ◌≤◌, ◌⊎◌, ◌↔◌, true, ◌==◌, if◌then◌else◌, List, [], length, map, slice_index, IfOk};
ghost use Rattle.std.specs.List.{range_with_len};
ghost use Rattle.flex_base.specs.Limits.{is_lawful};
ghost use Rattle.flex_base.specs.Loaded.{image_fits};
ghost use Rattle.flex_base.specs.Place.{ram_base};
ghost use Rattle.flex_base.specs.Word.{is_multiple};
ghost use Rattle.flex_base.specs.Setup.{Setup};
ghost use Rattle.flex_base.specs.Forms.{HasForm};
ghost use Rattle.flex_base.specs.Unsplit.{with_access};
ghost use Rattle.flex_base.specs.FlatMemory as memory;
ghost use Rattle.flex_base.specs.Reservations.{IsStanding};
ghost use Rattle.mem_lines.specs.Bank.{is_bank_count, offset, byte_held, reservation_at, IsIn, IsReplay, IsBank, IsSame};
ghost use Rattle.mem_lines.specs.Steps.{done_of, IsSpan, IsHere, Follows, reply_of};

use crate::image_bytes::bank_bytes;
use crate::little_endian::{load, store};
use crate::offsets::offset;
use crate::reservations::Reservations;
use flex_base::{Access, AmoOp, HartId, Image, Reply, Settings, reservation_set};
use rv_alu::amo;
use std::alloc::{AllocError, Global};
use std::marker::Model;

/// One bank of memory: its 64-byte lines, and the reservations of the harts.
///
/// The lines of RAM are dealt to the banks in turn, so the bank of an address is its line's number,
/// the address divided by 64, modulo the number of banks. An access is little-endian and acts at
/// once on all of its bytes (Volume I, "Load and Store Instructions" and "A").
#[derive(Drop)]
pub struct Lines {
    ram: u64,
    banks: u8,
    bank: u8,
    bytes: Vec<u8>,
    reservations: Reservations,
}

impl Model for Lines {
    ghost use Rattle.mem_lines.specs.Bank.{Bank, IsKept};

    ghost Value = { Bank };

    ghost view = { λ l. record {
      ram = l.ram;
      banks = l.banks;
      bank = l.bank;
      bytes = l.bytes.items;
      places = l.reservations;
    } };

    ghost invariant = { λ l. IsKept l.ram l.banks l.bank l.bytes.items };
}

impl Lines {
    /// The bank of this number, of so many, with the bytes of the image and no reservation.
    ///
    /// The settings are lawful and the image fits their RAM. The number of banks is a power of two
    /// from 1 to 64, and the bank is below it. An error means that memory ran out.
    pub fn new(
        alloc: Global,
        image: &Image,
        settings: &Settings,
        banks: u8,
        bank: u8,
    ) -> Result<Lines, AllocError>
        requires lawful { is_lawful settings.now ≡ true }
        requires fits { image_fits settings.now.ram image.now ≡ true }
        requires banks { is_bank_count banks ≡ true }
        requires bank { bank < banks }
        ensures bank { IfOk result (λ lines. IsBank settings.now.ram banks bank lines) }
        ensures replay { IfOk result (λ lines. (setup : Setup) → setup.image ≡ image.now → setup.ram ≡ settings.now.ram
            → IsReplay setup [] lines) }
    {
        let ram = settings.ram;
        let bytes = bank_bytes(alloc, ram, banks, bank, &image.parts)?;
        Ok(Lines {
            ram,
            banks,
            bank,
            bytes,
            reservations: Reservations::none(),
        })
    }

    /// Makes an access of RAM in this bank, by a hart below 32, and replies.
    ///
    /// The bytes of the access are 1, 2, 4 or 8, those of an atomic operation 4 or 8, and aligned.
    /// The reply tells what was read, and of an atomic operation what stood there before. A
    /// store-conditional writes where the reservation of its hart stands, and replies 0; else it
    /// replies 1 (Volume I, "Load-Reserved/Store-Conditional Instructions").
    #[tactic(auto, using(flex_base::proofs::StandingReservations::stands_law))]
    pub fn act(&mut self, hart: HartId, acc: &Access) -> Reply
        requires hart { hart.0 < 32 }
        requires here { IsHere self.old acc.now }
        ensures flat { (setup : Setup) (made : List memory.Done) → IsReplay setup made self.old
            → result ≡ memory.flat setup.image made hart.0 acc.now }
        ensures replay { (setup : Setup) (made : List memory.Done) → IsReplay setup made self.old
            → IsReplay setup (with_access made hart.0 acc.now result) self.new }
        ensures form { HasForm acc.now result }
        ensures same { IsSame self.old self.new }

        // What it is that a reservation stands, in the manual's words.
        ensures stands { (made : List memory.Done) (h set : ℕ) → (memory.stands made h set ≡ true) ↔ IsStanding made h set }
    {
        self.make(hart.0, acc)
    }

    /// The size of the whole RAM in bytes.
    pub fn ram(&self) -> u64
        ensures bank { result ≡ self.now.ram }
        ensures replay { (setup : Setup) (made : List memory.Done) → IsReplay setup made self.now → result ≡ setup.ram }
    {
        self.ram
    }

    /// The byte at an address of this bank.
    pub fn byte(&self, address: u64) -> u8
        requires inside { IsIn self.now address }
        ensures { (setup : Setup) (made : List memory.Done) → IsReplay setup made self.now
            → result ≡ memory.byte setup.image made address }
    {
        let bytes: &[u8] = &self.bytes;
        bytes[offset(self.banks, address)]
    }

    /// The bytes of this bank, one line of 64 after another.
    ///
    /// Where there is one bank, they are all bytes of RAM.
    pub fn bytes(&self) -> &[u8]
        ensures bytes { result.now ≡ self.now.bytes }
        ensures whole { (setup : Setup) (made : List memory.Done) → IsReplay setup made self.now → self.now.banks ≡ 1
            → result.now ≡ map (λ i. memory.byte setup.image made (ram_base + i)) (range_with_len 0 setup.ram) }
    {
        self.bytes.as_slice()
    }

    /// The 64 bytes of the line of this bank that begins at this address.
    #[inline]
    pub fn line(&self, address: u64) -> &[u8]
        requires inside { IsIn self.now address }
        requires begins { is_multiple address 64 ≡ true }
        ensures size { length result.now ≡ 64 }
        ensures bytes { (i : ℕ) → i < 64 → slice_index result.now i ≡ byte_held self.now (address + i) }
    {
        let start = self.line_start(address);
        &self.bytes[start..start + 64]
    }

    // Where the bytes of a line begin.
    fn line_start(&self, address: u64) -> usize
        requires inside { IsIn self.now address }
        requires begins { is_multiple address 64 ≡ true }
        ensures start { result ≡ offset self.now.banks address }
        ensures within { result + 64 ≤ length self.now.bytes }
    {
        offset(self.banks, address)
    }

    // Where the bytes of an access begin.
    fn start(&self, address: u64, width: u8) -> usize
        requires span { IsSpan self.now address width }
        ensures start { result ≡ offset self.now.banks address }
        ensures within { result + width ≤ length self.now.bytes }
        ensures few { width ≤ 8 }
    {
        offset(self.banks, address)
    }

    // The little-endian value of so many bytes from the address up.
    fn value(&self, address: u64, width: u8) -> u64
        requires span { IsSpan self.now address width }
        ensures value { result ≡ memory.value_at (byte_held self.now) address width }
        ensures fits { result < 2 ^ (8 * width) }
    {
        let start = self.start(address, width);
        load(&self.bytes, start, width)
    }

    // Writes so many bytes of a value, which ends the reservations of other harts.
    fn write(&mut self, hart: u8, address: u64, width: u8, value: u64)
        requires span { IsSpan self.old address width }
        ensures same { IsSame self.old self.new }
        ensures each { (a : ℕ) → IsIn self.old a → byte_held self.new a
            ≡ memory.put a (byte_held self.old a) address width value }
        ensures reservations { (h : ℕ) → reservation_at self.new h ≡ memory.broken h hart address (reservation_at self.old h) }
    {
        let start = self.start(address, width);
        store(&mut self.bytes, start, width, value);
        self.reservations.end_others(hart, address);
    }

    // Makes an access of what the bank holds.
    fn make(&mut self, hart: u8, acc: &Access) -> Reply
        requires hart { hart < 32 }
        requires here { IsHere self.old acc.now }
        ensures reply { result ≡ reply_of self.old hart acc.now }
        ensures form { HasForm acc.now result }
        ensures follows { Follows (done_of hart acc.now result) self.old self.new }
    {
        match *acc {
            Access::Fetch { address } => Reply::with_value(self.value(address, 4)),
            Access::Pte { address } => Reply::with_value(self.value(address, 8)),
            Access::Read { address, width } => Reply::with_value(self.value(address, width)),
            Access::Write {
                address,
                width,
                value,
            } => {
                self.write(hart, address, width, value);
                Reply::with_value(0)
            }
            Access::Lr { address, width } => self.load_reserved(hart, address, width),
            Access::Sc {
                address,
                width,
                value,
            } => self.store_conditional(hart, address, width, value),
            Access::Amo {
                op,
                address,
                width,
                value,
            } => self.modify(hart, op, address, width, value),
            Access::DevRead { .. } | Access::DevWrite { .. } | Access::Time => Reply::with_value(0),
            Access::Pulse { .. } | Access::Wait { .. } | Access::Retire => Reply::with_value(0),
        }
    }

    fn load_reserved(&mut self, hart: u8, address: u64, width: u8) -> Reply
        requires hart { hart < 32 }
        requires span { IsSpan self.old address width }
        ensures reply { result ≡ reply_of self.old hart (Access.Lr address width) }
        ensures form { HasForm (Access.Lr address width) result }
        ensures follows { Follows (done_of hart (Access.Lr address width) result) self.old self.new }
    {
        let value = self.value(address, width);
        self.reserve(hart, reservation_set(address));
        Reply::with_value(value)
    }

    fn store_conditional(&mut self, hart: u8, address: u64, width: u8, value: u64) -> Reply
        requires hart { hart < 32 }
        requires span { IsSpan self.old address width }
        ensures reply { result ≡ reply_of self.old hart (Access.Sc address width value) }
        ensures form { HasForm (Access.Sc address width value) result }
        ensures follows { Follows (done_of hart (Access.Sc address width value) result) self.old self.new }
    {
        let reserved = self.has_reserved(hart, address);
        self.release(hart);
        if reserved {
            self.write(hart, address, width, value);
            Reply::with_value(0)
        } else {
            Reply::with_value(1)
        }
    }

    fn modify(&mut self, hart: u8, op: AmoOp, address: u64, width: u8, value: u64) -> Reply
        requires hart { hart < 32 }
        requires atomic { (width ≡ 4) ⊎ (width ≡ 8) }
        requires span { IsSpan self.old address width }
        ensures reply { result ≡ reply_of self.old hart (Access.Amo op address width value) }
        ensures form { HasForm (Access.Amo op address width value) result }
        ensures follows { Follows (done_of hart (Access.Amo op address width value) result) self.old self.new }
    {
        let old = self.value(address, width);
        self.write(hart, address, width, amo(op, old, value, width));
        Reply::with_value(old)
    }

    // Sets what a hart has reserved.
    fn reserve(&mut self, hart: u8, reservation_set: u64)
        requires hart { hart < 32 }
        ensures same { IsSame self.old self.new }
        ensures each { (a : ℕ) → byte_held self.new a ≡ byte_held self.old a }
        ensures reservations { (h : ℕ) → reservation_at self.new h
            ≡ (if h == hart then Some reservation_set else reservation_at self.old h) }
    {
        self.reservations.reserve(hart, reservation_set);
    }

    // Ends a hart's reservation.
    fn release(&mut self, hart: u8)
        requires hart { hart < 32 }
        ensures same { IsSame self.old self.new }
        ensures each { (a : ℕ) → byte_held self.new a ≡ byte_held self.old a }
        ensures reservations { (h : ℕ) → reservation_at self.new h
            ≡ (if h == hart then None else reservation_at self.old h) }
    {
        self.reservations.release(hart);
    }

    // Whether a hart's reservation of the 8 bytes of this address stands.
    fn has_reserved(&self, hart: u8, address: u64) -> bool
        requires hart { hart < 32 }
        ensures { result ≡ memory.is_reserved (reservation_at self.now hart) (memory.reservation_set address) }
    {
        self.reservations.stands(hart, reservation_set(address))
    }
}

#[cfg(test)]
mod tests;
