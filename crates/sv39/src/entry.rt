// Page table entries (Volume II, "Addressing and Memory Protection").
ghost use Rattle.std.specs.Prelude.{◌≡◌, ◌==◌, ◌%◌, ◌^◌, ◌<◌, not, ◌&&◌, ◌||◌};
ghost use Rattle.flex_base.specs.Word.{field};
ghost use Rattle.flex_base.specs.Translation.{is_valid, is_readable, is_writable, is_user, is_accessed, is_dirty, is_leaf, frame_of, pages_at, leaf_at};
ghost use Rattle.sv39.specs.Stage.{number_of};

use crate::level::Level;
use crate::word::{field, is_set};
use flex_base::Leaf;

// The bits of an entry, and of a leaf's flags.
const VALID: u32 = 0;

pub(crate) const READ: u32 = 1;

pub(crate) const WRITE: u32 = 2;

pub(crate) const EXECUTE: u32 = 3;

pub(crate) const USER: u32 = 4;

pub(crate) const ACCESSED: u32 = 6;

pub(crate) const DIRTY: u32 = 7;

// Whether an entry has what leaves and tables have alike: V, no W without R, and none of the bits
// that have to be 0.
pub(crate) fn is_sound(pte: u64) -> bool
    ensures { result ≡ (is_valid pte && (is_readable pte || not (is_writable pte))
        && (field 54 10 pte == 0)) }
{
    is_set(pte, VALID) && (is_set(pte, READ) || !is_set(pte, WRITE)) && field(pte, 54, 10) == 0
}

pub(crate) fn is_leaf(pte: u64) -> bool
    ensures { result ≡ is_leaf pte }
{
    is_set(pte, READ) || is_set(pte, WRITE) || is_set(pte, EXECUTE)
}

// Whether the bits are clear that have a meaning in leaves alone, which is this project's own rule.
pub(crate) fn is_plain(pte: u64) -> bool
    ensures { result ≡ not (is_user pte || is_accessed pte || is_dirty pte) }
{
    !is_set(pte, USER) && !is_set(pte, ACCESSED) && !is_set(pte, DIRTY)
}

pub(crate) fn frame(pte: u64) -> u64
    ensures frame { result ≡ frame_of pte }
    ensures small { result < 2 ^ 44 }
{
    field(pte, 10, 44)
}

// Whether the leaf's frame is a multiple of what it maps.
pub(crate) fn is_aligned(level: Level, pte: u64) -> bool
    ensures { result ≡ (frame_of pte % pages_at (number_of level) == 0) }
{
    frame(pte) % level.pages() == 0
}

pub(crate) fn leaf(level: Level, va: u64, pte: u64) -> Leaf
    ensures { result ≡ leaf_at (number_of level) va pte }
{
    let page = field(va, 12, 27);
    Leaf {
        page,
        frame: frame(pte) + page % level.pages(),
        flags: field(pte, 0, 8) as u8,
    }
}
