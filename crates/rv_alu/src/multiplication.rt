// The high halves of products of 64-bit words (Volume I, "Multiplication Operations").
ghost use Rattle.std.specs.Prelude.{◌≡◌, ℕ, pos, ◌*ℤ◌};
ghost use Rattle.std.specs.Int.{w64, cast_signed};
ghost use Rattle.flex_base.specs.Arithmetic.{high_half};

pub(crate) fn high_signed(a: i64, b: i64) -> u64
    ensures { result ≡ high_half (a *ℤ b) }
{
    high_half(product(a, b))
}

pub(crate) fn high_mixed(a: i64, b: u64) -> u64
    ensures { result ≡ high_half (a *ℤ pos b) }
{
    high_half(i128::from(a) * i128::from(b))
}

pub(crate) fn high_unsigned(a: u64, b: u64) -> u64
    ensures { result ≡ high_half (pos a *ℤ pos b) }
{
    (u128::from(a) * u128::from(b) >> 64) as u64
}

// Two words have a product of 128 bits.
fn product(a: i64, b: i64) -> i128
    ensures { result ≡ a *ℤ b }
{
    i128::from(a) * i128::from(b)
}

fn high_half(product: i128) -> u64
    ensures { result ≡ high_half product }
{
    ((product >> 64) as i64).cast_unsigned()
}
