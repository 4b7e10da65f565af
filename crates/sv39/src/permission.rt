ghost use Rattle.std.specs.Prelude.{◌≡◌, ◌↔◌, IsTrue, IsOk, IfOk, ◌&&◌, ◌||◌, not};
ghost use Rattle.flex_base.specs.Translation.{needs, is_fetch, is_load, is_store, is_mode_u, is_mode_s, is_readable, is_writable, is_executable, is_user, is_accessed, is_dirty, permitted};

use crate::entry::{ACCESSED, DIRTY, EXECUTE, READ, USER, WRITE};
use crate::word::is_set;
use flex_base::{Kind, Leaf, Mode};

/// The access isn't permitted: a page fault of its kind.
#[derive(Clone, Copy, Debug, PartialEq, Eq)]
pub struct PageFault;

/// The number of the leaf's physical frame of 4 KiB, where its flags permit an access of this kind
/// and mode with the bits SUM and MXR of `mstatus` (Volume II, "Addressing and Memory Protection").
/// The walker sets neither A nor D, so an access that needs one that isn't set is refused.
pub fn permit(leaf: &Leaf, kind: Kind, mode: Mode, sum: bool, mxr: bool) -> Result<u64, PageFault>
    ensures permits { IsOk result ↔ IsTrue (permitted leaf.now kind mode sum mxr) }
    ensures frame { IfOk result (λ frame. frame ≡ leaf.now.frame) }
{
    let flags = leaf.flags as u64;
    if has_right(flags, kind, mxr) && is_open(flags, kind, mode, sum) && is_marked(flags, kind) {
        Ok(leaf.frame)
    } else {
        Err(PageFault)
    }
}

fn has_right(flags: u64, kind: Kind, mxr: bool) -> bool
    ensures { result ≡ (needs (is_fetch kind) (is_executable flags)
        && needs (is_load kind) (is_readable flags || (mxr && is_executable flags))
        && needs (is_store kind) (is_writable flags)) }
{
    match kind {
        Kind::Fetch => is_set(flags, EXECUTE),
        Kind::Load => is_set(flags, READ) || mxr && is_set(flags, EXECUTE),
        Kind::Store => is_set(flags, WRITE),
    }
}

// Whether the mode may use a page of this owner.
fn is_open(flags: u64, kind: Kind, mode: Mode, sum: bool) -> bool
    ensures { result ≡ (needs (is_mode_u mode) (is_user flags)
        && needs (is_mode_s mode && is_fetch kind) (not (is_user flags))
        && needs (is_mode_s mode && not (is_fetch kind)) (sum || not (is_user flags))) }
{
    let of_user = is_set(flags, USER);
    match (mode, kind) {
        (Mode::U, _) => of_user,
        (Mode::S, Kind::Fetch) => !of_user,
        (Mode::S, _) => sum || !of_user,
        (Mode::M, _) => true,
    }
}

// Whether the marks are set that the access would leave.
fn is_marked(flags: u64, kind: Kind) -> bool
    ensures { result ≡ (is_accessed flags && needs (is_store kind) (is_dirty flags)) }
{
    match kind {
        Kind::Store => is_set(flags, ACCESSED) && is_set(flags, DIRTY),
        _ => is_set(flags, ACCESSED),
    }
}
