//! Where a context's pass lies between two events. A pass must be spent, so behind a `&mut` it is
//! taken out for a call of the bus, and put back.
ghost use Rattle.std.specs.Prelude.{◌≡◌, true, false, Some, IfNone, IfSome};
ghost use Rattle.flex_base.specs.Forms.{HasForm, IsPlaced};
ghost use Rattle.access_record.specs.Logs.{is_access};
ghost use Rattle.access_record.specs.Buses.{place_in, access_entry, IsGiven, Wants, waits, engine_of, HasByte, Extends, HasLooked, waits_unwoken};
ghost use Rattle.access_record.specs.Histories.{InHistory, IsUnwokenIn};
ghost use Rattle.flex_base.specs.declared.event.What.TheVariants as What;

use access_record::{Bus, Entry, Pass};
use flex_base::{Access, Engine, HartId, Reply};
use std::marker::Model;

/// A pass that lies there.
pub(crate) struct HeldPass {
    slot: Option<Pass>,
}

impl Model for HeldPass {
    ghost use Rattle.std.specs.Prelude.{◌≡◌, Some};
    ghost use Rattle.access_record.specs.Passes.{PassOfHart};
    ghost use Rattle.context.specs.Held.{pass_in};

    ghost Value = { PassOfHart };

    ghost view = { λ p. pass_in p.slot };

    ghost invariant = { λ p. p.slot ≡ Some (pass_in p.slot) };
}

impl HeldPass {
    pub(crate) fn new(pass: Pass) -> HeldPass
        ensures { result ≡ pass }
    {
        HeldPass { slot: Some(pass) }
    }

    pub(crate) fn into_pass(self) -> Pass
        ensures { result ≡ self }
    {
        let HeldPass { slot } = self;
        let Some(pass) = slot else { unreachable!() };
        pass
    }

    pub(crate) fn hart(&self) -> HartId
        ensures { result ≡ self.now.hart }
    {
        match &self.slot {
            Some(pass) => pass.hart(),
            None => unreachable!(),
        }
    }

    // The bus's `access`, on the pass that lies there.
    pub(crate) fn access<B: Bus>(
        &mut self,
        bus: &mut B,
        engine: Engine,
        acc: Access,
    ) -> (u64, Reply)
        requires given { IsGiven (B.run bus.old) self.old }
        requires wanted { Wants (B.run bus.old) self.old acc }
        requires placed { IsPlaced (B.run bus.old).setup.harts (B.run bus.old).setup.ram acc }
        requires awake { waits self.old ≡ false }
        requires console { HasByte (B.run bus.old) self.old acc }
        ensures noted { Extends self.old self.new (access_entry engine acc result.1) (Some (place_in (B.run bus.old) acc)) result.0 }
        ensures history { InHistory (B.run bus.old) (B.history bus.old) self.old.hart.0 (What.Acc acc result.1) result.0 (B.history bus.new) }
        ensures form { HasForm acc result.1 }
        ensures same { B.run bus.new ≡ B.run bus.old }
    {
        let Some(pass) = self.slot.take() else {
            unreachable!()
        };
        let (pass, number, reply) = bus.access(pass, engine, acc);
        let left = self.slot.replace(pass);
        let None = left else { unreachable!() };
        (number, reply)
    }

    // The bus's `wake`.
    pub(crate) fn wake<B: Bus>(&mut self, bus: &mut B, engine: Engine) -> Option<(u64, Reply)>
        requires given { IsGiven (B.run bus.old) self.old }
        requires waits { waits self.old ≡ true }
        requires engine { engine_of self.old ≡ Some engine }
        ensures woken { IfSome result (λ r. Extends self.old self.new (access_entry engine (Access.Pulse false) r.1)
            (Some (place_in (B.run bus.old) (Access.Pulse false))) r.0) }
        ensures history { IfSome result (λ r. InHistory (B.run bus.old) (B.history bus.old) self.old.hart.0
            (What.Acc (Access.Pulse false) r.1) r.0 (B.history bus.new)) }
        ensures form { IfSome result (λ r. HasForm (Access.Pulse false) r.1) }
        ensures value { IfSome result (λ r. r.1.value ≡ 0) }
        ensures looked { IfNone result (HasLooked self.old self.new) }
        ensures unwoken { IfNone result (waits_unwoken (B.run bus.old) self.new ≡ true) }
        ensures in_history { IfNone result (IsUnwokenIn (B.run bus.old) (B.history bus.old) self.old.hart.0) }
        ensures stays { IfNone result (B.history bus.new ≡ B.history bus.old) }
        ensures same { B.run bus.new ≡ B.run bus.old }
    {
        let Some(pass) = self.slot.take() else {
            unreachable!()
        };
        let (pass, made) = bus.wake(pass, engine);
        let left = self.slot.replace(pass);
        let None = left else { unreachable!() };
        made
    }

    // The bus's `note`.
    pub(crate) fn note<B: Bus>(&mut self, bus: &mut B, entry: Entry) -> u64
        requires given { IsGiven (B.run bus.old) self.old }
        requires own { is_access entry.what ≡ false }
        ensures noted { Extends self.old self.new entry None result }
        ensures history { InHistory (B.run bus.old) (B.history bus.old) self.old.hart.0 entry.what result (B.history bus.new) }
        ensures same { B.run bus.new ≡ B.run bus.old }
    {
        let Some(pass) = self.slot.take() else {
            unreachable!()
        };
        let (pass, number) = bus.note(pass, entry);
        let left = self.slot.replace(pass);
        let None = left else { unreachable!() };
        number
    }
}
