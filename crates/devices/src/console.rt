ghost use Rattle.std.specs.Prelude.{◌≡◌, true, false, if◌then◌else◌, [], ◌∷◌, ◌++◌, drop, ◌^◌, ◌<◌, IfOk};
ghost use Rattle.flex_base.specs.Devices.{has_input, next_byte, line_status};
ghost use Rattle.devices.specs.View.{has_room};

use std::alloc::{AllocError, Global};
use std::marker::Model;

// Bits of the line status: input is ready; the transmitter holding register is empty; so is the
// transmitter.
const LSR_DR: u64 = 0x01;

const LSR_THRE: u64 = 0x20;

const LSR_TEMT: u64 = 0x40;

// The bytes that are left to be read, and those that were sent.
#[derive(Drop)]
pub(crate) struct Console {
    input: Vec<u8>,
    taken: usize,
    sent: Vec<u8>,
    keeps: bool,
}

impl Model for Console {
    ghost use Rattle.std.specs.Prelude.{drop, vec_capacity};
    ghost use Rattle.devices.specs.View.{ConsoleView};

    ghost Value = { ConsoleView };

    ghost view = { λ c. record {
      left = drop c.taken c.input.items;
      sent = c.sent.items;
      room = vec_capacity c.sent;
      keeps = c.keeps;
    } };
}

impl Console {
    // A console with this input and room for so many bytes that are sent.
    pub(crate) fn new(alloc: Global, input: Vec<u8>, room: usize) -> Result<Console, AllocError>
        ensures left { IfOk result (λ console. console.left ≡ input.items) }
        ensures sent { IfOk result (λ console. console.sent ≡ []) }
        ensures room { IfOk result (λ console. console.room ≡ room) }
        ensures keeps { IfOk result (λ console. console.keeps ≡ true) }
    {
        let sent = Vec::with_capacity(alloc, room)?;
        Ok(Console {
            input,
            taken: 0,
            sent,
            keeps: true,
        })
    }

    fn has_input(&self) -> bool
        ensures { result ≡ has_input self.now.left }
    {
        self.taken < self.input.len()
    }

    // The next byte of the input, or 0 where none is left.
    pub(crate) fn take(&mut self) -> u8
        ensures byte { result ≡ next_byte self.old.left }
        ensures left { self.new ≡ record self.old { left = drop 1 self.old.left } }
    {
        if self.has_input() {
            let byte = self.input[self.taken];
            self.taken += 1;
            byte
        } else {
            0
        }
    }

    // The line status: a byte can always be sent.
    pub(crate) fn line_status(&self) -> u64
        ensures value { result ≡ line_status self.now.left }
        ensures byte { result < 2 ^ 8 }
    {
        let ready = if self.has_input() { LSR_DR } else { 0 };
        LSR_TEMT + LSR_THRE + ready
    }

    // Whether a byte may be sent: one that is kept needs room.
    pub(crate) fn has_room(&self) -> bool
        ensures { result ≡ has_room self.now }
    {
        !self.keeps || self.sent.len() < self.sent.capacity()
    }

    // Sends a byte, which is kept unless none are.
    pub(crate) fn send(&mut self, byte: u8)
        requires room { has_room self.old ≡ true }
        ensures sent { self.new.sent ≡ (if self.old.keeps then self.old.sent ++ byte ∷ [] else self.old.sent) }
        ensures left { self.new.left ≡ self.old.left }
        ensures room { self.new.room ≡ self.old.room }
        ensures keeps { self.new.keeps ≡ self.old.keeps }
    {
        if self.keeps {
            self.sent.push_reserved(byte);
        }
    }

    pub(crate) fn keep_none(&mut self)
        ensures { self.new ≡ record self.old { keeps = false } }
    {
        self.keeps = false;
    }

    pub(crate) fn sent(&self) -> &[u8]
        ensures { result.now ≡ self.now.sent }
    {
        self.sent.as_slice()
    }
}
