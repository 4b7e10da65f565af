ghost use Rattle.std.specs.Prelude.{◌≡◌, ◌/◌, ◌%◌};
ghost use Rattle.flex_base.specs.Translation.{IsLeaf, of_page};
ghost use Rattle.hart_state.specs.IsLatest.{leaf_of};

use flex_base::Leaf;

/// The translations that a hart keeps, which is this project's own: for each remainder of a page's
/// number by 16 the last leaf that was kept.
#[derive(Clone, Copy, Debug, PartialEq, Eq)]
pub struct Kept {
    // The number of the page in each place, or `NOTHING`.
    pages: [u32; 16],
    // The frame, above the 8 flags.
    words: [u64; 16],
}

// No page has a number from `PAGES` on.
const PAGES: u32 = 0x800_0000;

const NOTHING: u32 = 0xffff_ffff;

// Every hart of a run has its own.
const _: () = prove!(size_of::<Kept>() <= 200);

impl Kept {
    ghost use Rattle.std.specs.Prelude.{◌≡◌, ◌<◌, List, [], ◌∷◌, ◌++◌};
    ghost use Rattle.flex_base.specs.Translation.{IsLeaf, kept, latest};
    ghost use Rattle.flex_base.specs.declared.translation.Leaf.{Leaf};
    ghost use Rattle.hart_state.specs.IsLatest.{IsLatest};

    /// Nothing is kept.
    pub fn new() -> Kept
        ensures { IsLatest result [] }
    {
        Kept {
            pages: [NOTHING; 16],
            words: [0; 16],
        }
    }

    /// The leaf that is kept for a page; none where its place has another page's or nothing.
    pub fn look(&self, page: u64) -> Option<Leaf>
        ensures { (leaves : List Leaf) → IsLatest self.now leaves → result ≡ kept leaves page }
    {
        of_page(page, self.at((page % 16) as u8))
    }

    // What a place holds.
    fn at(&self, place: u8) -> Option<Leaf>
        requires { place < 16 }
        ensures { (leaves : List Leaf) → IsLatest self.now leaves → result ≡ latest leaves place }
    {
        leaf_of(self.pages[place as usize], self.words[place as usize])
    }

    /// Keeps a leaf, in place of what had its page's remainder.
    pub fn keep(&mut self, leaf: Leaf)
        requires { IsLeaf leaf }
        ensures { (leaves : List Leaf) → IsLatest self.old leaves
            → IsLatest self.new (leaves ++ leaf ∷ []) }
    {
        let place = (leaf.page % 16) as usize;
        self.pages[place] = leaf.page as u32;
        self.words[place] = word_of(leaf);
    }

    /// Drops all that is kept.
    pub fn clear(&mut self)
        ensures { IsLatest self.new [] }
    {
        *self = Kept::new();
    }
}

fn of_page(page: u64, leaf: Option<Leaf>) -> Option<Leaf>
    ensures { result ≡ of_page page leaf }
{
    match leaf {
        Some(leaf) if leaf.page == page => Some(leaf),
        _ => None,
    }
}

fn leaf_of(page: u32, word: u64) -> Option<Leaf>
    ensures { result ≡ leaf_of page word }
{
    if page < PAGES {
        Some(Leaf {
            page: page as u64,
            frame: word / 256,
            flags: (word % 256) as u8,
        })
    } else {
        None
    }
}

fn word_of(leaf: Leaf) -> u64
    requires { IsLeaf leaf }
    ensures frame { result / 256 ≡ leaf.frame }
    ensures flags { result % 256 ≡ leaf.flags }
{
    leaf.frame * 256 + leaf.flags as u64
}

#[cfg(test)]
mod tests;
