ghost use Rattle.std.specs.Prelude.{◌≡◌, ◌%◌, ◌==◌, Some};
ghost use Rattle.flex_base.specs.Translation.{of_page};

use crate::translation::Translated;
use flex_base::Leaf;
use hart_state::Kept;

/// The leaves that the walks of one instruction have found. The hart keeps them at its end.
#[derive(Clone, Copy, Debug, PartialEq, Eq)]
pub struct Found {
    // The numbers of pages are below 2^27.
    first_page: u32,
    second_page: u32,
    first_frame: u64,
    second_frame: u64,
    first_flags: u8,
    second_flags: u8,
    count: u8,
}

impl Found {
    ghost use Rattle.std.specs.Prelude.{◌≡◌, ◌≢◌, ◌<◌, ◌≤◌, ◌+◌, ℕ, List, ◌++◌, [], ◌∷◌};
    ghost use Rattle.flex_base.specs.Translation.{kept, AreLeaves, IsLeaf};
    ghost use Rattle.flex_base.specs.declared.translation.Leaf.{Leaf};
    ghost use Rattle.hart_state.specs.IsLatest.{IsLatest};
    ghost use Rattle.flex_base.specs.State.{State};
    ghost use Rattle.hart_story.specs.Found.{first_of, second_of, leaves_of, state_at};
    ghost use Rattle.hart_story.specs.Translated.{state_after, entries_in, IsSoundTranslated};

    pub(crate) fn none() -> Found
        ensures { result ≡ record {
          first_page = 0;
          second_page = 0;
          first_frame = 0;
          second_frame = 0;
          first_flags = 0;
          second_flags = 0;
          count = 0;
        } }
    {
        Found {
            first_page: 0,
            second_page: 0,
            first_frame: 0,
            second_frame: 0,
            first_flags: 0,
            second_flags: 0,
            count: 0,
        }
    }

    fn first(&self) -> Leaf
        ensures { result ≡ first_of self.now }
    {
        Leaf {
            page: self.first_page as u64,
            frame: self.first_frame,
            flags: self.first_flags,
        }
    }

    fn second(&self) -> Leaf
        ensures { result ≡ second_of self.now }
    {
        Leaf {
            page: self.second_page as u64,
            frame: self.second_frame,
            flags: self.second_flags,
        }
    }

    pub(crate) fn clear(&mut self)
        ensures { self.new.count ≡ 0 }
    {
        self.count = 0;
    }

    // A leaf more; an instruction has at most two walks.
    pub(crate) fn add(&mut self, leaf: Leaf)
        requires count { self.old.count < 2 }
        requires leaf { IsLeaf leaf }
        ensures leaves { leaves_of self.new ≡ leaves_of self.old ++ leaf ∷ [] }
        ensures count { self.new.count ≡ self.old.count + 1 }
    {
        if self.count == 0 {
            self.first_page = leaf.page as u32;
            self.first_frame = leaf.frame;
            self.first_flags = leaf.flags;
        } else {
            self.second_page = leaf.page as u32;
            self.second_frame = leaf.frame;
            self.second_flags = leaf.flags;
        }
        self.count += 1;
    }

    // A leaf more where a walk has found one.
    pub(crate) fn note(&mut self, came: &Translated)
        requires count { self.old.count < 2 }
        requires sound { (ram : ℕ) × (va : ℕ) × IsSoundTranslated ram va came.now }
        ensures leaves { (a : State) (lines : ℕ)
            → state_at a lines self.new ≡ state_after (state_at a lines self.old) came.now }
        ensures sound { (ram va : ℕ) → IsSoundTranslated ram va came.now → AreLeaves (leaves_of self.old)
            → AreLeaves (leaves_of self.new) }
        ensures count { self.new.count ≤ self.old.count + 1 }
        ensures same { entries_in came.now ≢ 0 → self.new ≡ self.old }
    {
        match *came {
            Translated::Found(_, leaf) => self.add(leaf),
            _ => {}
        }
    }

    // The leaf that is kept for a page, by the hart or as one of these.
    pub(crate) fn look(&self, held: &Kept, page: u64) -> Option<Leaf>
        ensures { (leaves : List Leaf) → IsLatest held.now leaves
            → result ≡ kept (leaves ++ leaves_of self.now) page }
    {
        if self.count == 0 {
            return held.look(page);
        }
        let second = self.second();
        if self.count != 1 && has_place(&second, page) {
            return of_page(&second, page);
        }
        let first = self.first();
        if has_place(&first, page) {
            return of_page(&first, page);
        }
        held.look(page)
    }

    // The hart keeps them.
    pub(crate) fn keep_in(&self, held: &mut Kept)
        requires { AreLeaves (leaves_of self.now) }
        ensures { (leaves : List Leaf) → IsLatest held.old leaves
            → IsLatest held.new (leaves ++ leaves_of self.now) }
    {
        if self.count == 0 {
            return;
        }
        held.keep(self.first());
        if self.count != 1 {
            held.keep(self.second());
        }
    }
}

// Whether the leaf's place is that of the page.
fn has_place(leaf: &Leaf, page: u64) -> bool
    ensures { result ≡ (leaf.now.page % 16 == page % 16) }
{
    leaf.page % 16 == page % 16
}

fn of_page(leaf: &Leaf, page: u64) -> Option<Leaf>
    ensures { result ≡ of_page page (Some leaf.now) }
{
    if leaf.page == page { Some(*leaf) } else { None }
}
