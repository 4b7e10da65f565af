//! A bus that threads may share, reached through the trait alone.
ghost use Rattle.std.specs.Prelude.{◌≡◌, ◌≤◌, [], ◌∷◌, vec_len, vec_capacity};
ghost use Rattle.access_record.specs.Buses.{IsGiven};
ghost use Rattle.mem_banks.specs.End.{IsFounderOf, IsMemoryOf};

use super::{SETTINGS, image};
use crate::{Banks, EndMemory, PlainBus, RunName, SharedBus};
use access_record::{Bus, Entry, Founder, Pass};
use flex_base::{Engine, HartId, OpenGate, What};
use std::alloc::{AllocError, Global};
use std::marker::Brand;
use std::process::Abort;
use std::sync::Wait;
use std::test::Fail;

fn hand_over<B: Bus>(bus: &mut B, pass: Pass) -> Pass
    requires given { IsGiven (B.run bus.old) pass }
    ensures record { result.id ≡ pass.id }
    ensures hart { result.hart ≡ pass.hart }
{
    let entry = Entry {
        engine: Engine::Pipe,
        what: What::Handover(Engine::Host),
    };
    let (pass, _number) = bus.note(pass, entry);
    pass
}

// Puts the banks under locks, notes a handover, and takes the locks away. An error is want of memory.
fn under_locks<N: RunName, R: Wait>(
    rt: &R,
    alloc: Global,
    plain: PlainBus,
    pass: Pass,
) -> (EndMemory, Pass, Result<(), AllocError>)
    requires name { plain.run ≡ N.run }
    requires given { IsGiven plain.run pass }
    ensures memory { IsMemoryOf N.run result.0 }
    ensures record { result.1.id ≡ pass.id }
    ensures hart { result.1.hart ≡ pass.hart }
{
    let banks = match Banks::<N>::new(alloc, plain) {
        Ok(banks) => banks,
        Err(plain) => return (plain.dissolve(), pass, Err(AllocError)),
    };
    let pass = hand_over(&mut SharedBus::new(rt, &banks, &OpenGate), pass);
    let (memory, room) = banks.dissolve(rt);
    room.discard();
    (memory, pass, Ok(()))
}

// Answers how many events were counted. An error is want of memory.
fn count_named<N: RunName, R: Wait>(
    rt: &R,
    alloc: Global,
    plain: PlainBus,
    founder: Founder,
    pass: Pass,
    mut passes: Vec<Pass>,
) -> Result<u64, AllocError>
    requires name { plain.run ≡ N.run }
    requires given { IsGiven plain.run pass }
    requires founder { IsFounderOf plain.run founder }
    requires harts { founder.harts ≡ pass.hart.0 ∷ [] }
    requires room { (vec_len passes ≡ 0) × (1 ≤ vec_capacity passes) }
{
    let (mut memory, pass, done) = under_locks::<N, R>(rt, alloc, plain, pass);
    passes.push_reserved(pass);
    let closed = memory.settle(founder, passes);
    memory.discard();
    done?;
    Ok(closed.count)
}

#[test]
fn a_shared_bus_notes(rt: HostRuntime) -> Result<(), Fail> {
    let image = image(rt.alloc())?;
    assert!(rt; SETTINGS.lawful() && image.fits(SETTINGS.ram));
    let passes = Vec::with_capacity(rt.alloc(), 1)?;
    let input = Vec::new(rt.alloc());
    let Ok((mut plain, founder)) = PlainBus::new(rt.alloc(), &image, &SETTINGS, 4, input) else {
        passes.destroy_empty();
        return Err(AllocError.into());
    };
    let (founder, pass) = plain.enrol(founder, HartId(0));
    let count = count_named::<Brand, _>(&rt, rt.alloc(), plain, founder, pass, passes)?;
    assert_eq!(rt; count, 1);
    Ok(())
}
