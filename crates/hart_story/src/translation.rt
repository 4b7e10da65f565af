// Virtual addresses (Volume II, "Virtual Address Translation Process").
ghost use Rattle.std.specs.Prelude.{◌≡◌, ◌≢◌, ◌%◌, ◌<◌, ◌||◌, ℕ, [], IsTrue, IfSome, IsSome, ◌↔◌, true};
ghost use Rattle.flex_base.specs.Setup.{Setup};
ghost use Rattle.flex_base.specs.State.{State};
ghost use Rattle.flex_base.specs.StoryTree.{Story};
ghost use Rattle.flex_base.specs.Word.{is_set};
ghost use Rattle.flex_base.specs.Translation.{is_canonical, is_mode_s, is_mode_u, page_of, IsLeaf, address_in};
ghost use Rattle.flex_base.specs.Translating.{mode_by_mprv, mode_for, is_translated, may_use, with_leaf, uses, walks, translates};
ghost use Rattle.flex_base.specs.declared.translation.Leaf.{Leaf};
ghost use Rattle.flex_base.specs.declared.translation.WalkStep.TheVariants as step;
ghost use Rattle.flex_base.specs.declared.hart.Mode.TheVariants as mode;
ghost use Rattle.sv39.specs.IsAfter.{ahead, entries_left};
ghost use Rattle.hart_story.specs.Found.{Sees};
ghost use Rattle.hart_story.specs.Outcome.{IsOf};
ghost use Rattle.hart_story.specs.StandsFor.{Shows};
ghost use Rattle.hart_story.specs.Translated.{translated_of, state_after, entries_in, IsSoundTranslated};

use crate::causes::{access_fault, page_fault};
use crate::found::Found;
use crate::hart::Hart;
use crate::memory::is_in_ram;
use flex_base::{Kind, Layout, Leaf, Mode};
use sv39::{PageFault, Walk, WalkStep, permit};

// Bits of mstatus (Volume II, "Memory Privilege in mstatus Register"); MPP has two, from this one on.
const MPP: u32 = 11;

const MPRV: u32 = 17;

const SUM: u32 = 18;

const MXR: u32 = 19;

// The MODE of satp that translates by Sv39.
const SV39: u64 = 8;

/// What a translation comes to.
#[derive(Clone, Copy, Debug, PartialEq, Eq)]
pub enum Translated {
    /// The walk needs an entry, which lies in RAM.
    Walks(Walk),
    /// This is the physical address.
    To(u64),
    /// This is the physical address, by the leaf that a walk has found.
    Found(u64, Leaf),
    /// It is an exception of this cause.
    Fails(u64),
}

// The translation of an address, as far as it comes without a read of memory.
#[inline(always)]
pub(crate) fn translate(
    hart: &Hart,
    layout: &Layout,
    found: &Found,
    kind: Kind,
    va: u64,
) -> Translated
    ensures translates { (setup : Setup) (budget : ℕ) (a : State) (next : State → ℕ → Story) → IsOf setup layout.now budget
        → Sees hart.now found.now a → translates setup.ram a kind va next ≡ translated_of setup.ram a kind va next result }
    ensures same { (a : State) → state_after a result ≡ a }
    ensures sound { IsSoundTranslated layout.now.ram va result }
{
    if is_translated(hart, kind) {
        by_pages(hart, layout, found, kind, va)
    } else {
        Translated::To(va)
    }
}

// By Sv39, which looks at what is kept first.
#[inline(never)]
fn by_pages(hart: &Hart, layout: &Layout, found: &Found, kind: Kind, va: u64) -> Translated
    ensures translates { (setup : Setup) (budget : ℕ) (a : State) (next : State → ℕ → Story) → IsOf setup layout.now budget
        → Sees hart.now found.now a → is_translated a kind ≡ true
        → translates setup.ram a kind va next ≡ translated_of setup.ram a kind va next result }
    ensures same { (a : State) → state_after a result ≡ a }
    ensures sound { IsSoundTranslated layout.now.ram va result }
{
    if !is_canonical(va) {
        return Translated::Fails(page_fault(kind));
    }
    match found.look(&hart.kept, page_of(va)) {
        Some(leaf) => use_kept(hart, kind, &leaf, va),
        None => arrive(hart, layout, kind, va, Walk::start(hart.csrs.satp(), va)),
    }
}

// Where a walk has come to. A leaf is tested for the access; an entry outside RAM is an access
// fault.
pub(crate) fn arrive(hart: &Hart, layout: &Layout, kind: Kind, va: u64, walk: Walk) -> Translated
    ensures arrives { (setup : Setup) (budget : ℕ) (a : State) (next : State → ℕ → Story) (left : ℕ) → IsOf setup layout.now budget
        → Shows hart.now a → ((address : ℕ) → ahead walk [] ≡ step.Need address → left ≡ entries_left walk)
        → walks setup.ram a kind va next left (ahead walk) ≡ translated_of setup.ram a kind va next result }
    ensures walk { entries_in result ≢ 0 → (address : ℕ) × (ahead walk [] ≡ step.Need address)
        × (entries_in result ≡ entries_left walk) }
    ensures same { ((leaf : Leaf) → ahead walk [] ≢ step.Leaf leaf) → (a : State) → state_after a result ≡ a }
    ensures sound { IsSoundTranslated layout.now.ram va result }
{
    match walk.next() {
        WalkStep::Need(address) => {
            if is_in_ram(layout, address, 8) {
                Translated::Walks(walk)
            } else {
                Translated::Fails(access_fault(kind))
            }
        }
        WalkStep::Leaf(leaf) => use_found(hart, kind, leaf, va),
        WalkStep::Fault => Translated::Fails(page_fault(kind)),
    }
}

// What is kept is tested anew at each use.
fn use_kept(hart: &Hart, kind: Kind, leaf: &Leaf, va: u64) -> Translated
    ensures uses { (ram : ℕ) (a : State) (next : State → ℕ → Story) → IsLeaf leaf.now → Shows hart.now a
        → uses ram a kind va next a leaf.now ≡ translated_of ram a kind va next result }
    ensures same { (a : State) → state_after a result ≡ a }
    ensures sound { (ram : ℕ) → IsSoundTranslated ram va result }
{
    match address_by(hart, kind, leaf, va) {
        Some(address) => Translated::To(address),
        None => Translated::Fails(page_fault(kind)),
    }
}

fn use_found(hart: &Hart, kind: Kind, leaf: Leaf, va: u64) -> Translated
    requires { IsLeaf leaf }
    ensures uses { (ram : ℕ) (a : State) (next : State → ℕ → Story) → Shows hart.now a
        → uses ram a kind va next (with_leaf a leaf) leaf ≡ translated_of ram a kind va next result }
    ensures none { entries_in result ≡ 0 }
    ensures sound { (ram : ℕ) → IsSoundTranslated ram va result }
{
    match address_by(hart, kind, &leaf, va) {
        Some(address) => Translated::Found(address, leaf),
        None => Translated::Fails(page_fault(kind)),
    }
}

// The physical address by a leaf, where the leaf permits the access.
fn address_by(hart: &Hart, kind: Kind, leaf: &Leaf, va: u64) -> Option<u64>
    ensures permits { (a : State) → Shows hart.now a → IsSome result ↔ IsTrue (may_use a kind leaf.now) }
    ensures address { IsLeaf leaf.now → IfSome result (λ address. address ≡ address_in leaf.now va) }
    ensures offset { IfSome result (λ address. address % 4096 ≡ va % 4096) }
{
    let status = hart.csrs.mstatus();
    let sum = is_set(status, SUM);
    let mxr = is_set(status, MXR);
    match permit(leaf, kind, mode_for(hart, kind), sum, mxr) {
        Ok(frame) => Some(frame.wrapping_mul(4096).wrapping_add(va % 4096)),
        Err(PageFault) => None,
    }
}

// The mode in which the hart makes an access: with MPRV set M loads and stores as in the mode that
// stands in MPP.
fn mode_for(hart: &Hart, kind: Kind) -> Mode
    ensures { (a : State) → Shows hart.now a → result ≡ mode_for a kind }
{
    match (hart.regs.mode, kind) {
        (mode, Kind::Fetch) => mode,
        (Mode::M, _) => mode_by_mprv(hart.csrs.mstatus()),
        (lower, _) => lower,
    }
}

// The mode of loads and stores in M.
fn mode_by_mprv(status: u64) -> Mode
    ensures { result ≡ mode_by_mprv mode.M status }
{
    if !is_set(status, MPRV) {
        return Mode::M;
    }
    match status >> MPP & 3 {
        0 => Mode::U,
        1 => Mode::S,
        _ => Mode::M,
    }
}

fn is_translated(hart: &Hart, kind: Kind) -> bool
    ensures { (a : State) → Shows hart.now a → result ≡ is_translated a kind }
{
    is_below_m(mode_for(hart, kind)) && hart.csrs.satp() >> 60 == SV39
}

fn is_below_m(mode: Mode) -> bool
    ensures { result ≡ (is_mode_s mode || is_mode_u mode) }
{
    !matches!(mode, Mode::M)
}

// Whether bits 63 to 39 equal bit 38.
fn is_canonical(va: u64) -> bool
    ensures { result ≡ is_canonical va }
{
    va >> 39 == if is_set(va, 38) { 0x1ff_ffff } else { 0 }
}

fn page_of(va: u64) -> u64
    ensures { result ≡ page_of va }
{
    va >> 12 & 0x7ff_ffff
}

fn is_set(word: u64, bit: u32) -> bool
    requires { bit < 64 }
    ensures { result ≡ is_set bit word }
{
    word >> bit & 1 == 1
}
