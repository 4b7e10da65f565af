ghost use Rattle.std.specs.Prelude.{◌≡◌, ◌+◌, [], ◌∷◌, ◌++◌, true, false, Some, IfNone, IfSome};
ghost use Rattle.flex_base.specs.Forms.{HasForm};
ghost use Rattle.flex_base.specs.FlatMemory.{is_ram_access};
ghost use Rattle.flex_base.specs.Banks.{accesses_of, IsAnswered};
ghost use Rattle.access_record.specs.Logs.{log_entry};
ghost use Rattle.access_record.specs.Buses.{ram_banks, events_of, access_entry, waits, Extends, HasLooked, waits_unwoken};
ghost use Rattle.mem_banks.specs.Kept.{AreDevicesOf, IsReady, MayMake};
ghost use Rattle.mem_banks.specs.Locked.{locked_devices, AreLockedDevices};

use crate::at_devices::{access_devices, wake_at};
use crate::run_name::RunName;
use access_record::{AccessRecord, BankPass, Pass};
use devices::Devices;
use flex_base::{Access, Engine, Reply};
use std::marker::{Model, PhantomData};

/// What lies under the lock of the devices: they, and the pass whose log they are the replay of. The
/// pass is that of the devices in the record of the named run.
pub struct DeviceCell<N: RunName> {
    devices: Devices,
    slot: Option<BankPass>,
    of: PhantomData<N>,
}

impl<N: RunName> Model for DeviceCell<N> {
    ghost use Rattle.mem_banks.specs.Locked.{LockedDevices, locked_devices, AreLockedDevices};

    ghost Value = { LockedDevices };

    ghost view = { λ c. locked_devices c.devices c.slot };

    ghost invariant = { λ c. AreLockedDevices N.run c.devices c.slot };
}

impl<N: RunName> DeviceCell<N> {
    pub(crate) fn new(devices: Devices, pass: BankPass) -> DeviceCell<N>
        requires kept { AreLockedDevices N.run devices (Some pass) }
        ensures { result ≡ locked_devices devices (Some pass) }
    {
        DeviceCell {
            devices,
            slot: Some(pass),
            of: PhantomData,
        }
    }

    pub(crate) fn into_parts(self) -> (Devices, BankPass)
        ensures kept { AreLockedDevices N.run result.0 (Some result.1) }
        ensures same { self ≡ locked_devices result.0 (Some result.1) }
    {
        let DeviceCell {
            devices,
            slot,
            of: _,
        } = self;
        let Some(pass) = slot else { unreachable!() };
        (devices, pass)
    }

    /// Makes one look, then an access of the devices, and then one note of it, and answers its number
    /// and the reply. When the lock was got, the devices were the replay of their log, which was such
    /// as their log must be, and no hart had transmitted more bytes than its budget.
    ///
    /// The conditions are those of a bus, except that no story need ask the access. The record is that
    /// of the named run.
    pub fn access(
        &mut self,
        book: &AccessRecord,
        pass: Pass,
        engine: Engine,
        acc: Access,
    ) -> (Pass, u64, Reply)
        requires book { book.now ≡ N.run.book }
        requires may { MayMake N.run pass acc }
        requires device { is_ram_access acc ≡ false }
        ensures kept { AreDevicesOf N.run self.old.devices self.old.log }
        ensures noted { Extends pass result.0 (access_entry engine acc result.2) (Some (ram_banks N.run)) result.1 }
        ensures looked { (result.0.looks ≡ pass.looks + 1) × (result.0.looked ≡ self.old.log) }
        ensures log { self.new.log ≡ self.old.log ++ log_entry (access_entry engine acc result.2) pass.hart (Some (ram_banks N.run)) result.1 ∷ [] }
        ensures answered { IsAnswered N.run.setup (ram_banks N.run) (ram_banks N.run) (accesses_of (events_of self.old.log)) pass.hart.0 acc result.2 }
        ensures form { HasForm acc result.2 }
    {
        access_devices(book, &mut self.devices, &mut self.slot, pass, engine, acc)
    }

    /// Makes one look and, where the hart is woken, its pulse and one note of it. None comes only where
    /// the hart waits unwoken in the devices' log, at which the pass has looked in this call.
    ///
    /// The conditions are those of a bus, in whatever engine the hart waits. The record is that of the
    /// named run.
    pub fn wake(
        &mut self,
        book: &AccessRecord,
        pass: Pass,
        engine: Engine,
    ) -> (Pass, Option<(u64, Reply)>)
        requires book { book.now ≡ N.run.book }
        requires ready { IsReady N.run pass }
        requires waits { waits pass ≡ true }
        ensures kept { AreDevicesOf N.run self.old.devices self.old.log }
        ensures woken { IfSome result.1 (λ r. Extends pass result.0 (access_entry engine (Access.Pulse false) r.1) (Some (ram_banks N.run)) r.0) }
        ensures log { IfSome result.1 (λ r. self.new.log
            ≡ self.old.log ++ log_entry (access_entry engine (Access.Pulse false) r.1) pass.hart (Some (ram_banks N.run)) r.0 ∷ []) }
        ensures answered { IfSome result.1 (λ r. IsAnswered N.run.setup (ram_banks N.run) (ram_banks N.run)
            (accesses_of (events_of self.old.log)) pass.hart.0 (Access.Pulse false) r.1) }
        ensures form { IfSome result.1 (λ r. HasForm (Access.Pulse false) r.1) }
        ensures value { IfSome result.1 (λ r. r.1.value ≡ 0) }
        ensures looked { IfNone result.1 (HasLooked pass result.0) }
        ensures unwoken { IfNone result.1 (waits_unwoken N.run result.0 ≡ true) }
        ensures stays { IfNone result.1 (self.new.log ≡ self.old.log) }
    {
        wake_at(book, &mut self.devices, &mut self.slot, pass, engine)
    }
}
