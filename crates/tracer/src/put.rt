// What text is put into, and the parts of a line, each put at the end.

ghost use Rattle.std.specs.Prelude.{◌≡◌, ◌+◌, ◌≤◌, ◌<◌, ◌++◌, List, ℕ, length, take, decimal};
ghost use Rattle.tracer.specs.EventText.{hex_digits, hex, flag, span_text};

use flex_base::Line;
use itoa::Buffer;
use std::simd::prelude::*;

/// What text is put into, at its end.
pub trait Put {
    /// What was put so far.
    ghost text: { Self → List ℕ };

    /// How many bytes there is room for in all.
    ghost room: { ℕ };

    /// Puts these bytes.
    fn put(&mut self, bytes: &[u8])
        requires { length (text self.old) + length bytes.now ≤ room }
        ensures text { text self.new ≡ text self.old ++ bytes.now }
        ensures room { length (text self.new) ≡ length (text self.old) + length bytes.now };

    /// Puts the first of these bytes, so many. It may write 16, so there has to be room for them.
    fn put_first(&mut self, bytes: &[u8], count: usize)
        requires bytes { 16 ≤ length bytes.now }
        requires count { count ≤ 16 }
        requires fits { length (text self.old) + 16 ≤ room }
        ensures text { text self.new ≡ text self.old ++ take count bytes.now }
        ensures room { length (text self.new) ≡ length (text self.old) + count };
}

impl Put for Line {
    ghost text = { λ line. line };

    ghost room = { 128 };

    #[inline]
    fn put(&mut self, bytes: &[u8]) {
        self.push(bytes);
    }

    #[inline]
    fn put_first(&mut self, bytes: &[u8], count: usize) {
        self.push(&bytes[..count]);
    }
}

// Each digit at the place of its value.
const DIGITS: [u8; 16] = *b"0123456789abcdef";

// From the highest byte to the lowest, the place of its high half and, 8 further, of its low half.
const IN_TURN: [usize; 16] = [7, 15, 6, 14, 5, 13, 4, 12, 3, 11, 2, 10, 1, 9, 0, 8];

#[inline(always)]
pub(crate) fn put_number<P: Put>(into: &mut P, n: u64)
    requires { length (P.text into.old) + 20 ≤ P.room }
    ensures text { P.text into.new ≡ P.text into.old ++ decimal n }
    ensures room { length (P.text into.new) ≤ length (P.text into.old) + 20 }
{
    if n < 10 {
        put_digit(into, n as u8);
    } else if n < 100 {
        put_two_digits(into, n as u8);
    } else {
        put_long(into, n);
    }
}

// A number that has three digits at most, as a hart's.
#[inline(always)]
pub(crate) fn put_small<P: Put>(into: &mut P, n: u8)
    requires { length (P.text into.old) + 3 ≤ P.room }
    ensures text { P.text into.new ≡ P.text into.old ++ decimal n }
    ensures room { length (P.text into.new) ≤ length (P.text into.old) + 3 }
{
    if n < 10 {
        put_digit(into, n);
    } else {
        put_longer(into, n);
    }
}

// A number of one digit, as most harts' and all widths are: it needs no buffer.
#[inline(always)]
fn put_digit<P: Put>(into: &mut P, n: u8)
    requires digit { n < 10 }
    requires fits { length (P.text into.old) + 1 ≤ P.room }
    ensures text { P.text into.new ≡ P.text into.old ++ decimal n }
    ensures room { length (P.text into.new) ≡ length (P.text into.old) + 1 }
{
    into.put(&[b'0' + n]);
}

// As a register's number.
#[inline(always)]
fn put_two_digits<P: Put>(into: &mut P, n: u8)
    requires digits { (10 ≤ n) × (n < 100) }
    requires fits { length (P.text into.old) + 2 ≤ P.room }
    ensures text { P.text into.new ≡ P.text into.old ++ decimal n }
    ensures room { length (P.text into.new) ≡ length (P.text into.old) + 2 }
{
    into.put(&[b'0' + n / 10, b'0' + n % 10]);
}

#[cold]
fn put_longer<P: Put>(into: &mut P, n: u8)
    requires { length (P.text into.old) + 3 ≤ P.room }
    ensures text { P.text into.new ≡ P.text into.old ++ decimal n }
    ensures room { length (P.text into.new) ≤ length (P.text into.old) + 3 }
{
    into.put(Buffer::new().format(n).as_bytes());
}

#[cold]
fn put_long<P: Put>(into: &mut P, n: u64)
    requires { length (P.text into.old) + 20 ≤ P.room }
    ensures text { P.text into.new ≡ P.text into.old ++ decimal n }
    ensures room { length (P.text into.new) ≤ length (P.text into.old) + 20 }
{
    into.put(Buffer::new().format(n).as_bytes());
}

// So many hexadecimal digits of a number, in lower case, leading zeros among them.
#[inline(always)]
pub(crate) fn put_digits<P: Put>(into: &mut P, count: usize, n: u64)
    requires count { count ≤ 16 }
    requires fits { length (P.text into.old) + count ≤ P.room }
    ensures text { P.text into.new ≡ P.text into.old ++ hex_digits count n }
    ensures room { length (P.text into.new) ≡ length (P.text into.old) + count }
{
    into.put(&digits_of(n)[16 - count..]);
}

// All digits of a number at once: the halves of its bytes are the digits' values.
#[inline(always)]
fn digits_of(n: u64) -> [u8; 16]
    ensures { result ≡ hex n }
{
    let bytes = u64x1::splat(n).to_le_bytes();
    let high = bytes >> u8x8::splat(4);
    let low = bytes & u8x8::splat(15);
    let values = high.shuffle(low, IN_TURN);
    u8x16::from_array(DIGITS).swizzle_dyn(values).to_array()
}

// An address or a value, by 16 digits.
#[inline(always)]
pub(crate) fn put_hex<P: Put>(into: &mut P, n: u64)
    requires { length (P.text into.old) + 16 ≤ P.room }
    ensures text { P.text into.new ≡ P.text into.old ++ hex n }
    ensures room { length (P.text into.new) ≡ length (P.text into.old) + 16 }
{
    put_digits(into, 16, n);
}

#[inline(always)]
pub(crate) fn put_flag<P: Put>(into: &mut P, set: bool)
    requires { length (P.text into.old) + 1 ≤ P.room }
    ensures text { P.text into.new ≡ P.text into.old ++ flag set }
    ensures room { length (P.text into.new) ≡ length (P.text into.old) + 1 }
{
    if set {
        into.put(b"1");
    } else {
        into.put(b"0");
    }
}

// An address and a width.
#[inline(always)]
pub(crate) fn put_span<P: Put>(into: &mut P, address: u64, width: u8)
    requires { length (P.text into.old) + 20 ≤ P.room }
    ensures text { P.text into.new ≡ P.text into.old ++ span_text address width }
    ensures room { length (P.text into.new) ≤ length (P.text into.old) + 20 }
{
    put_hex(into, address);
    into.put(b" ");
    put_small(into, width);
}
