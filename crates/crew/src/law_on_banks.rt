ghost use Rattle.std.specs.Prelude.{◌≡◌, ℕ, true, List};
ghost use Rattle.flex_base.specs.Setup.{Setup};
ghost use Rattle.flex_base.specs.Loaded.{Loaded};
ghost use Rattle.flex_base.specs.FlatMemory.{Done, is_ram_access, byte, flat};
ghost use Rattle.flex_base.specs.Forms.{IsPlaced};
ghost use Rattle.flex_base.specs.Banks.{bank_of, bank_of_access};
ghost use Rattle.flex_base.specs.Reservations.{AsksReserved};
ghost use Rattle.flex_base.specs.StoryTree.{Asks};
ghost use Rattle.flex_base.specs.declared.access.Access.{Access};
ghost use Rattle.solo.specs.Standing.{of_bank, ArePlaced};

/// Memory's reply after all accesses is its reply after those of the access's bank alone. A
/// store-conditional must be of the 8 bytes that its hart reserved last.
#[tactic(auto, using(crate::proofs::BankReplies::flat_of_bank))]
pub fn reply_of_bank()
    ensures { (setup : Setup) (image : Loaded) (banks : ℕ) (made : List Done) (hart : ℕ) (access : Access) → ArePlaced setup made → is_ram_access access ≡ true → IsPlaced setup.harts setup.ram access → AsksReserved made hart (Asks access) → flat image made hart access ≡ flat image (of_bank banks (bank_of_access banks access) made) hart access }
{}

/// A byte after all accesses is that after those of its bank alone.
#[tactic(auto, using(crate::proofs::BankReplies::byte_of_bank))]
pub fn byte_of_bank()
    ensures { (setup : Setup) (image : Loaded) (banks : ℕ) (made : List Done) (a : ℕ) → ArePlaced setup made → byte image made a ≡ byte image (of_bank banks (bank_of banks a) made) a }
{}
