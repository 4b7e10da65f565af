// Division as the manual has it, in which nothing traps (Volume I, "Division Operations").
ghost use Rattle.std.specs.Prelude.{◌≡◌, ℕ, int_div};
ghost use Rattle.std.specs.Int.{w32, w64, IsNonZero, cast_unsigned};
ghost use Rattle.flex_base.specs.Arithmetic.{signed_quotient, signed_remainder, unsigned_quotient, unsigned_remainder};

pub(crate) fn divide(a: u64, b: u64) -> u64
    ensures { result ≡ signed_quotient w64 a b }
{
    if b == 0 {
        u64::MAX
    } else {
        quotient(a.cast_signed(), b.cast_signed())
    }
}

pub(crate) fn remainder(a: u64, b: u64) -> u64
    ensures { result ≡ signed_remainder w64 a b }
{
    if b == 0 {
        a
    } else {
        a.cast_signed()
            .wrapping_rem(b.cast_signed())
            .cast_unsigned()
    }
}

pub(crate) fn divide_unsigned(a: u64, b: u64) -> u64
    ensures { result ≡ unsigned_quotient w64 a b }
{
    if b == 0 { u64::MAX } else { a / b }
}

pub(crate) fn remainder_unsigned(a: u64, b: u64) -> u64
    ensures { result ≡ unsigned_remainder a b }
{
    if b == 0 { a } else { a % b }
}

pub(crate) fn divide_word(a: u32, b: u32) -> u32
    ensures { result ≡ signed_quotient w32 a b }
{
    if b == 0 {
        u32::MAX
    } else {
        quotient_word(a.cast_signed(), b.cast_signed())
    }
}

pub(crate) fn remainder_word(a: u32, b: u32) -> u32
    ensures { result ≡ signed_remainder w32 a b }
{
    if b == 0 {
        a
    } else {
        a.cast_signed()
            .wrapping_rem(b.cast_signed())
            .cast_unsigned()
    }
}

pub(crate) fn divide_word_unsigned(a: u32, b: u32) -> u32
    ensures { result ≡ unsigned_quotient w32 a b }
{
    if b == 0 { u32::MAX } else { a / b }
}

pub(crate) fn remainder_word_unsigned(a: u32, b: u32) -> u32
    ensures { result ≡ unsigned_remainder a b }
{
    if b == 0 { a } else { a % b }
}

// The word of the quotient, which wraps where no word holds it.
fn quotient(a: i64, b: i64) -> u64
    requires { IsNonZero w64 b }
    ensures { result ≡ cast_unsigned w64 (int_div a b) }
{
    a.wrapping_div(b).cast_unsigned()
}

fn quotient_word(a: i32, b: i32) -> u32
    requires { IsNonZero w32 b }
    ensures { result ≡ cast_unsigned w32 (int_div a b) }
{
    a.wrapping_div(b).cast_unsigned()
}
