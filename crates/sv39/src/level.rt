/// A level of tables, by what one of its entries maps where it is a leaf: a gigapage, a megapage or
/// a page of 4 KiB.
#[derive(Clone, Copy, Debug, PartialEq, Eq)]
pub(crate) enum Level {
    Gigapages,
    Megapages,
    Pages,
}

impl Level {
    ghost use Rattle.std.specs.Prelude.{◌≡◌, ◌+◌, ◌<◌, ◌≤◌, ◌↔◌, IsNone, IfSome};
    ghost use Rattle.flex_base.specs.Translation.{pages_at};
    ghost use Rattle.sv39.specs.Stage.{number_of};

    // The manual's number of the level.
    pub(crate) fn number(self) -> u32
        ensures number { result ≡ number_of self }
        ensures small { result < 3 }
    {
        match self {
            Level::Gigapages => 2,
            Level::Megapages => 1,
            Level::Pages => 0,
        }
    }

    // How many pages of 4 KiB a leaf maps.
    pub(crate) fn pages(self) -> u64
        ensures pages { result ≡ pages_at (number_of self) }
        ensures some { 0 < result }
        ensures few { result ≤ 262144 }
    {
        match self {
            Level::Gigapages => 262_144,
            Level::Megapages => 512,
            Level::Pages => 1,
        }
    }

    // The level of the tables that the entries of this one name.
    pub(crate) fn below(self) -> Option<Level>
        ensures none { IsNone result ↔ (number_of self ≡ 0) }
        ensures below { IfSome result (λ below. number_of self ≡ number_of below + 1) }
    {
        match self {
            Level::Gigapages => Some(Level::Megapages),
            Level::Megapages => Some(Level::Pages),
            Level::Pages => None,
        }
    }
}
