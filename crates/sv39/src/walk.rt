ghost use Rattle.std.specs.Prelude.{◌≡◌, true};
ghost use Rattle.flex_base.specs.Translation.{is_canonical};
ghost use Rattle.sv39.specs.Stage.{fits};

use crate::entry::{frame, is_aligned, is_leaf, is_plain, is_sound, leaf};
use crate::level::Level;
use crate::word::{field, is_set};
use flex_base::WalkStep;

/// A walk through the page tables for one address (Volume II, "Virtual Address Translation
/// Process").
#[derive(Clone, Copy, Debug, PartialEq, Eq)]
pub struct Walk {
    va: u64,
    // The physical address of the entry that is needed, or the entry of the leaf that was found.
    at: u64,
    stage: Stage,
    ghost fits: { fits stage at ≡ true },
}

#[derive(Clone, Copy, Debug, PartialEq, Eq)]
enum Stage {
    // It needs an entry of a table of this level.
    Reads(Level),
    // It has found a leaf in a table of this level.
    Found(Level),
    Faults,
}

// A hart that waits for an entry keeps its walk.
const _: () = prove!(size_of::<Walk>() == 24);

impl Walk {
    ghost use Rattle.std.specs.Prelude.{◌≡◌, ℕ, ◌+◌, ◌-◌, ◌<◌, ◌^◌, true, List, [], ◌∷◌, ◌++◌};
    ghost use Rattle.flex_base.specs.Word.{is_multiple};
    ghost use Rattle.flex_base.specs.Translation.{IsLeaf, follows, walk, walk_from};
    ghost use Rattle.flex_base.specs.declared.translation.Leaf.{Leaf};
    ghost use Rattle.sv39.specs.IsAfter.{IsAfter, ahead, entries_left};
    ghost use Rattle.sv39.specs.Stage.{number_of};

    /// The walk for a virtual address from the root table that `satp` names, whatever its MODE. No
    /// entry was read yet.
    pub fn start(satp: u64, va: u64) -> Walk
        ensures after { IsAfter result satp va [] }
        ensures ahead { (rest : List ℕ) → ahead result rest ≡ walk satp va rest }
        ensures left { (address : ℕ) → ahead result [] ≡ WalkStep.Need address → entries_left result ≡ 3 }
    {
        if is_canonical(va) {
            Walk::reads(va, Level::Gigapages, field(satp, 0, 44))
        } else {
            Walk::faults(va)
        }
    }

    /// Where the walk is.
    pub fn next(&self) -> WalkStep
        ensures after { (satp va : ℕ) (entries : List ℕ) → IsAfter self.now satp va entries
            → result ≡ walk satp va entries }
        ensures ahead { result ≡ ahead self.now [] }
        ensures aligned { (address : ℕ) → result ≡ WalkStep.Need address → is_multiple address 8 ≡ true }
        ensures left { (address : ℕ) → result ≡ WalkStep.Need address → 0 < entries_left self.now }
        ensures leaf { (leaf : Leaf) → result ≡ WalkStep.Leaf leaf → IsLeaf leaf }
    {
        match self.stage {
            Stage::Reads(_) => WalkStep::Need(self.at),
            Stage::Found(level) => WalkStep::Leaf(leaf(level, self.va, self.at)),
            Stage::Faults => WalkStep::Fault,
        }
    }

    /// Goes on with the value of the entry that `next` needs. A walk that has ended stays as it is.
    pub fn give(&mut self, pte: u64)
        ensures after { (satp va : ℕ) (entries : List ℕ) → IsAfter self.old satp va entries
            → IsAfter self.new satp va (entries ++ pte ∷ []) }
        ensures ahead { (rest : List ℕ) → ahead self.new rest ≡ ahead self.old (pte ∷ rest) }
        ensures left { (address : ℕ) → ahead self.new [] ≡ WalkStep.Need address
            → entries_left self.old ≡ entries_left self.new + 1 }
        ensures ends { entries_left self.old ≡ 0 → self.new ≡ self.old }
    {
        match self.stage {
            Stage::Reads(level) => *self = Walk::follow(self.va, level, pte),
            Stage::Found(_) | Stage::Faults => {}
        }
    }

    // The walk that needs an entry of the table in this frame.
    fn reads(va: u64, level: Level, table: u64) -> Walk
        requires { table < 2 ^ 44 }
        ensures ahead { (rest : List ℕ) → ahead result rest ≡ walk_from (number_of level) table va rest }
        ensures left { entries_left result ≡ number_of level + 1 }
    {
        let index = field(va, 12 + 9 * level.number(), 9);
        Walk {
            va,
            at: 4096 * table + 8 * index,
            stage: Stage::Reads(level),
        }
    }

    // The walk after an entry of a table of this level.
    fn follow(va: u64, level: Level, pte: u64) -> Walk
        ensures ahead { (rest : List ℕ) → ahead result rest
            ≡ follows (number_of level) va pte (λ table. walk_from (number_of level - 1) table va rest) }
        ensures left { (address : ℕ) → ahead result [] ≡ WalkStep.Need address
            → entries_left result ≡ number_of level }
    {
        if !is_sound(pte) {
            return Walk::faults(va);
        }
        if is_leaf(pte) {
            return if is_aligned(level, pte) {
                Walk {
                    va,
                    at: pte,
                    stage: Stage::Found(level),
                }
            } else {
                Walk::faults(va)
            };
        }
        match level.below() {
            Some(below) if is_plain(pte) => Walk::reads(va, below, frame(pte)),
            _ => Walk::faults(va),
        }
    }

    fn faults(va: u64) -> Walk
        ensures { (rest : List ℕ) → ahead result rest ≡ WalkStep.Fault }
    {
        Walk {
            va,
            at: 0,
            stage: Stage::Faults,
        }
    }
}

// Whether bits 63 to 39 equal bit 38.
fn is_canonical(va: u64) -> bool
    ensures { result ≡ is_canonical va }
{
    field(va, 39, 25) == if is_set(va, 38) { 0x1ff_ffff } else { 0 }
}
