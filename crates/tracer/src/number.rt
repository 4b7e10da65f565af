ghost use Rattle.std.specs.Prelude.{◌≡◌, ◌+◌, ◌-◌, ◌^◌, ◌<◌, ◌≤◌, ◌++◌, length, decimal};

use crate::put::Put;
use itoa::Buffer;
use std::marker::Model;

// The most digits that a number of 64 bits has.
const MOST: usize = 20;

/// A number by its decimal digits, which can count up.
#[derive(Drop)]
pub struct Number {
    value: u64,
    digits: [u8; MOST],
    count: usize,
}

impl Model for Number {
    ghost use Rattle.std.specs.Prelude.{◌≡◌, ◌≤◌, ℕ, take, decimal};

    ghost Value = { ℕ };

    ghost view = { λ n. n.value };

    ghost invariant = { λ n. (n.count ≤ 20) × (take n.count n.digits ≡ decimal n.value) };
}

impl Number {
    /// This number.
    pub fn of(value: u64) -> Number
        ensures { result ≡ value }
    {
        let mut buffer = Buffer::new();
        let text = buffer.format(value).as_bytes();
        let mut digits = [0; MOST];
        digits[..text.len()].copy_from_slice(text);
        Number {
            value,
            digits,
            count: text.len(),
        }
    }

    /// Goes to this number. To the next one it counts up.
    #[inline(always)]
    pub fn go_to(&mut self, value: u64)
        ensures { self.new ≡ value }
    {
        if value != 0 && self.value == value - 1 {
            self.count_up();
        } else {
            self.change_to(value);
        }
    }

    #[inline(always)]
    fn count_up(&mut self)
        requires { self.old < 2 ^ 64 - 1 }
        ensures { self.new ≡ self.old + 1 }
    {
        let last = self.count - 1;
        if self.digits[last] < b'9' {
            self.digits[last] += 1;
            self.value += 1;
        } else {
            self.carry();
        }
    }

    // After a nine: most often the digit before counts up.
    fn carry(&mut self)
        requires { self.old < 2 ^ 64 - 1 }
        ensures { self.new ≡ self.old + 1 }
    {
        let last = self.count - 1;
        if last > 0 && self.digits[last] == b'9' && self.digits[last - 1] < b'9' {
            self.digits[last - 1] += 1;
            self.digits[last] = b'0';
            self.value += 1;
        } else {
            self.change_to(self.value + 1);
        }
    }

    // Makes all digits anew.
    #[inline(never)]
    fn change_to(&mut self, value: u64)
        ensures { self.new ≡ value }
    {
        *self = Number::of(value);
    }

    /// Puts its digits.
    #[inline(always)]
    pub fn put_digits<P: Put>(&self, into: &mut P)
        requires { length (P.text into.old) + 20 ≤ P.room }
        ensures text { P.text into.new ≡ P.text into.old ++ decimal self.now }
        ensures room { length (P.text into.new) ≤ length (P.text into.old) + 20 }
    {
        if self.count <= 16 {
            into.put_first(&self.digits, self.count);
        } else {
            into.put(&self.digits[..self.count]);
        }
    }
}
