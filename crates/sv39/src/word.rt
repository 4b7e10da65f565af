// The fields of a word.
ghost use Rattle.std.specs.Prelude.{◌≡◌, ◌<◌};
ghost use Rattle.flex_base.specs.Word.{field, is_set};

pub(crate) fn field(word: u64, at: u32, bits: u32) -> u64
    requires at { at < 64 }
    requires bits { bits < 64 }
    ensures { result ≡ field at bits word }
{
    word >> at & ((1 << bits) - 1)
}

pub(crate) fn is_set(word: u64, at: u32) -> bool
    requires { at < 64 }
    ensures { result ≡ is_set at word }
{
    field(word, at, 1) == 1
}
