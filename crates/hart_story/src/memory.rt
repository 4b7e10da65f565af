// Loads, stores and atomic instructions.
ghost use Rattle.std.specs.Prelude.{◌≡◌, ◌≢◌, ◌<◌, ◌≤◌, ℕ, if◌then◌else◌, false, true};
ghost use Rattle.flex_base.specs.Setup.{Setup};
ghost use Rattle.flex_base.specs.State.{State};
ghost use Rattle.flex_base.specs.Causes.{access_fault};
ghost use Rattle.flex_base.specs.FlatMemory.{is_reserved, reservation_set};
ghost use Rattle.flex_base.specs.Place.{in_ram, place_of};
ghost use Rattle.flex_base.specs.Classes.{class_of_access};
ghost use Rattle.flex_base.specs.Word.{is_multiple};
ghost use Rattle.flex_base.specs.Ends.{traps, concludes};
ghost use Rattle.flex_base.specs.Story.{reaches, at_place};
ghost use Rattle.flex_base.specs.declared.settings.Layout.{Layout};
ghost use Rattle.flex_base.specs.declared.settings.Place.TheVariants as Place;
ghost use Rattle.hart_story.specs.declared.hart.Hart.{Hart};
ghost use Rattle.hart_story.specs.declared.memory_work.MemoryWork.{MemoryWork};
ghost use Rattle.hart_story.specs.declared.outcome.Outcome.TheVariants as Outcome;
ghost use Rattle.hart_story.specs.declared.stage.Stage.TheVariants as Stage;
ghost use Rattle.hart_story.specs.Memory.{kind_of, reaching, access_of, asking, device_access_of, asking_device, IsMemoryWork, IsAlignedWork};
ghost use Rattle.hart_story.specs.Translated.{translated_of, state_after, entries_in, access_left, IsSoundTranslated};
ghost use Rattle.hart_story.specs.Outcome.{IsOf, EndsAs, IsSoundEnd};
ghost use Rattle.hart_story.specs.StandsFor.{Shows};
ghost use Rattle.hart_story.specs.Stage.{stage_of, has_begun, left_at, is_over_at, ComesTo, IsSoundStage};

use crate::causes::{access_fault, misaligned};
use crate::ends::end_reserving;
use crate::found::Found;
use crate::hart::Hart;
use crate::memory_work::{MemoryOp, MemoryWork};
use crate::outcome::{End, Outcome};
use crate::stage::Stage;
use crate::translation::{Translated, translate};
use crate::width::cut;
use flex_base::{Access, Class, Kind, Layout, Place, is_reserved, reservation_set};

// The instruction tests its alignment, and then its address is translated. Its fetch may have found
// a leaf.
pub(crate) fn reach(
    hart: &Hart,
    layout: &Layout,
    found: &Found,
    stage: &mut Stage,
    work: MemoryWork,
)
    requires { IsMemoryWork work }
    ensures reaches { ComesTo layout.now hart.now found.now
        (λ setup a. reaches setup a (kind_of work.op) work.width work.address (reaching work setup)) stage.new }
    ensures sound { (count : ℕ) → count ≤ 1 → IsSoundStage layout.now hart.now count stage.new }
    ensures nearer { left_at stage.new < 6 }
    ensures begun { has_begun stage.new ≡ true }
    ensures goes_on { is_over_at stage.new ≡ false }
{
    let kind = kind_of(work.op);
    if work.address % work.width as u64 != 0 {
        *stage = trap(misaligned(kind), work.address);
        return;
    }
    let came = translate(hart, layout, found, kind, work.address);
    set_access_stage(hart, layout, stage, work, &came);
}

// The instruction by what the translation of its address has come to. The stage is written in place,
// since it is large.
#[inline(always)]
pub(crate) fn set_access_stage(
    hart: &Hart,
    layout: &Layout,
    stage: &mut Stage,
    work: MemoryWork,
    came: &Translated,
)
    requires { IsMemoryWork work }
    ensures goes { (setup : Setup) (budget : ℕ) (a : State) → IsOf setup layout.now budget → Shows hart.now a
        → translated_of setup.ram a (kind_of work.op) work.address (reaching work setup) came.now
        ≡ stage_of setup (state_after a came.now) stage.new }
    ensures sound { (count : ℕ) → IsAlignedWork work → IsSoundTranslated layout.now.ram work.address came.now
        → (entries_in came.now ≢ 0 → count ≤ 1) → IsSoundStage layout.now hart.now count stage.new }
    ensures nearer { left_at stage.new ≤ access_left came.now }
    ensures begun { has_begun stage.new ≡ true }
    ensures goes_on { is_over_at stage.new ≡ false }
{
    match *came {
        Translated::Walks(walk) => *stage = Stage::AccessWalk(walk, work),
        Translated::To(address) => place(hart, layout, stage, work, address),
        Translated::Found(address, _) => place(hart, layout, stage, work, address),
        Translated::Fails(cause) => *stage = trap(cause, work.address),
    }
}

// The instruction at its physical address.
#[inline(always)]
fn place(hart: &Hart, layout: &Layout, stage: &mut Stage, work: MemoryWork, address: u64)
    requires { IsMemoryWork work }
    ensures places { (setup : Setup) (budget : ℕ) (a : State) → IsOf setup layout.now budget → Shows hart.now a
        → reaching work setup a address ≡ stage_of setup a stage.new }
    ensures sound { (count : ℕ) → is_multiple address work.width ≡ true
        → IsSoundStage layout.now hart.now count stage.new }
    ensures nearer { left_at stage.new < 2 }
    ensures begun { has_begun stage.new ≡ true }
    ensures goes_on { is_over_at stage.new ≡ false }
{
    match work.op {
        MemoryOp::Load => place_anywhere(layout, stage, work, address),
        MemoryOp::Store => place_anywhere(layout, stage, work, address),
        MemoryOp::LoadReserved => {
            *stage = place_in_ram(layout, work, address, Stage::Access(address, work));
        }
        MemoryOp::StoreConditional => {
            *stage = place_in_ram(layout, work, address, conditional(hart, work, address));
        }
        MemoryOp::Modify(_) => {
            *stage = place_in_ram(layout, work, address, Stage::Access(address, work));
        }
    }
}

// A load or a store, of RAM or of a device register.
#[inline(always)]
fn place_anywhere(layout: &Layout, stage: &mut Stage, work: MemoryWork, address: u64)
    requires { IsMemoryWork work }
    ensures places { (setup : Setup) (budget : ℕ) (a : State) → IsOf setup layout.now budget
        → at_place (place_of setup.harts setup.ram address work.width) (asking work a address) (asking_device work a address)
        (traps a (access_fault (kind_of work.op)) work.address) ≡ stage_of setup a stage.new }
    ensures sound { (hart : Hart) (count : ℕ)
        → (in_ram layout.now.ram address work.width ≡ true → IsSoundStage layout.now hart count (Stage.Access address work))
        → (place_of layout.now.harts layout.now.ram address work.width ≡ Place.Device
        → IsSoundStage layout.now hart count (Stage.Device address work))
        → IsSoundStage layout.now hart count stage.new }
    ensures nearer { left_at stage.new < 2 }
    ensures begun { has_begun stage.new ≡ true }
    ensures goes_on { is_over_at stage.new ≡ false }
{
    match layout.place(address, work.width) {
        Place::Ram => *stage = Stage::Access(address, work),
        Place::Device => *stage = Stage::Device(address, work),
        Place::Nowhere => *stage = trap(access_fault(kind_of(work.op)), work.address),
    }
}

// An atomic instruction, which comes to this in RAM.
#[inline(never)]
fn place_in_ram(layout: &Layout, work: MemoryWork, address: u64, made: Stage) -> Stage
    requires nearer { left_at made < 2 }
    requires begun { has_begun made ≡ true }
    requires goes_on { is_over_at made ≡ false }
    ensures places { (setup : Setup) (budget : ℕ) (a : State) → IsOf setup layout.now budget
        → (if in_ram setup.ram address work.width then stage_of setup a made
        else traps a (access_fault (kind_of work.op)) work.address) ≡ stage_of setup a result }
    ensures sound { (hart : Hart) (count : ℕ)
        → (in_ram layout.now.ram address work.width ≡ true → IsSoundStage layout.now hart count made)
        → IsSoundStage layout.now hart count result }
    ensures nearer { left_at result < 2 }
    ensures begun { has_begun result ≡ true }
    ensures goes_on { is_over_at result ≡ false }
{
    if is_in_ram(layout, address, work.width) {
        made
    } else {
        trap(access_fault(kind_of(work.op)), work.address)
    }
}

// A store-conditional makes its access within the hart's reservation alone.
fn conditional(hart: &Hart, work: MemoryWork, address: u64) -> Stage
    requires { IsMemoryWork work }
    ensures works { (setup : Setup) (a : State) → Shows hart.now a
        → (if is_reserved a.reservation (reservation_set address) then asking work a address else concludes a work.rd 1)
        ≡ stage_of setup a result }
    ensures sound { (layout : Layout) (count : ℕ)
        → (is_reserved hart.now.regs.reservation (reservation_set address) ≡ true
        → IsSoundStage layout hart.now count (Stage.Access address work))
        → IsSoundStage layout hart.now count result }
    ensures nearer { left_at result < 2 }
    ensures begun { has_begun result ≡ true }
    ensures goes_on { is_over_at result ≡ false }
{
    if is_reserved(hart.regs.reservation, reservation_set(address)) {
        Stage::Access(address, work)
    } else {
        Stage::Working(Outcome::End(end_conditional(hart, work.rd, 1)))
    }
}

// A store-conditional ends the hart's reservation, whether it stored or not (Volume I,
// "Load-Reserved/Store-Conditional Instructions").
pub(crate) fn end_conditional(hart: &Hart, rd: u8, status: u64) -> End
    requires { rd < 32 }
    ensures works { EndsAs hart.now (λ a. concludes a rd status) result }
    ensures sound { (layout : Layout) → IsSoundEnd layout hart.now result }
{
    end_reserving(hart, Class::Atomic, rd, status, None)
}

// The access of the instruction at a physical address.
pub(crate) fn access_of(work: &MemoryWork, address: u64) -> Access
    ensures { IsMemoryWork work.now → result ≡ access_of work.now address }
{
    let width = work.width;
    match work.op {
        MemoryOp::Load => Access::Read { address, width },
        MemoryOp::Store => Access::Write {
            address,
            width,
            value: cut(width, work.value),
        },
        MemoryOp::LoadReserved => Access::Lr { address, width },
        MemoryOp::StoreConditional => Access::Sc {
            address,
            width,
            value: cut(width, work.value),
        },
        MemoryOp::Modify(op) => Access::Amo {
            op,
            address,
            width,
            value: cut(width, work.value),
        },
    }
}

// The access of a load or a store at a device register.
pub(crate) fn device_access_of(work: &MemoryWork, address: u64) -> Access
    ensures { IsMemoryWork work.now → result ≡ device_access_of work.now address }
{
    let width = work.width;
    match work.op {
        MemoryOp::Load => Access::DevRead { address, width },
        _ => Access::DevWrite {
            address,
            width,
            value: cut(width, work.value),
        },
    }
}

// What the instruction asks of a page.
pub(crate) fn kind_of(op: MemoryOp) -> Kind
    ensures { result ≡ kind_of op }
{
    match op {
        MemoryOp::Load | MemoryOp::LoadReserved => Kind::Load,
        _ => Kind::Store,
    }
}

pub(crate) fn class_of(op: MemoryOp) -> Class
    ensures { (w : MemoryWork) (address : ℕ) → w.op ≡ op → result ≡ class_of_access (access_of w address) }
{
    match op {
        MemoryOp::Load => Class::Load,
        MemoryOp::Store => Class::Store,
        _ => Class::Atomic,
    }
}

fn trap(cause: u64, tval: u64) -> Stage
    ensures { result ≡ Stage.Working (Outcome.Trap cause tval) }
{
    Stage::Working(Outcome::Trap { cause, tval })
}

pub(crate) fn is_in_ram(layout: &Layout, address: u64, width: u8) -> bool
    ensures { result ≡ in_ram layout.now.ram address width }
{
    matches!(layout.place(address, width), Place::Ram)
}
