// The low half of a register, on which the word forms work.
ghost use Rattle.std.specs.Prelude.{◌≡◌, ℕ};
ghost use Rattle.flex_base.specs.Word.{low, sign_extend};

pub(crate) fn low_word(value: u64) -> u32
    ensures { result ≡ low 32 value }
{
    (value & 0xffff_ffff) as u32
}

pub(crate) fn extend_word(word: u32) -> u64
    ensures { result ≡ sign_extend 32 word }
{
    (word.cast_signed() as i64).cast_unsigned()
}
