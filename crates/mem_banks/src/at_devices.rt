ghost use Rattle.std.specs.Prelude.{◌≡◌, ◌+◌, ◌≤◌, [], ◌∷◌, ◌++◌, true, false, Some, IfNone, IfSome};
ghost use Rattle.flex_base.specs.Forms.{HasForm};
ghost use Rattle.flex_base.specs.Banks.{access_in, IsAnswered};
ghost use Rattle.access_record.specs.Logs.{log_entry};
ghost use Rattle.access_record.specs.Buses.{Run, ram_banks, access_entry, Extends, HasLooked, is_unwoken_after, waits_unwoken};
ghost use Rattle.mem_banks.specs.Slots.{bank_in, log_in, done_in};
ghost use Rattle.mem_banks.specs.Kept.{AreDevicesAt, MakesAtDevices, MayWake};

use crate::slots::{look_at, note_at};
use access_record::{AccessRecord, BankPass, Entry, Pass};
use devices::Devices;
use flex_base::{Access, Engine, Reply, What};

// Makes an access of the devices. The look shows that the hart's own log tells what the hart has done
// here, so there is room for the byte that it may send, and it doesn't wait.
pub(crate) fn access_devices(
    book: &AccessRecord,
    devices: &mut Devices,
    slot: &mut Option<BankPass>,
    pass: Pass,
    engine: Engine,
    acc: Access,
) -> (Pass, u64, Reply)
    requires run { (run : Run) × MakesAtDevices run book.now devices.old slot.old pass acc }
    ensures noted { Extends pass result.0 (access_entry engine acc result.2) (Some (bank_in slot.old)) result.1 }
    ensures seen { pass.seen ≤ result.1 }
    ensures after { result.0.seen ≡ result.1 + 1 }
    ensures answered { (run : Run) → MakesAtDevices run book.now devices.old slot.old pass acc
        → IsAnswered run.setup (ram_banks run) (ram_banks run) (done_in slot.old) pass.hart.0 acc result.2 }
    ensures looked { (result.0.looks ≡ pass.looks + 1) × (result.0.looked ≡ log_in slot.old) }
    ensures log { log_in slot.new ≡ log_in slot.old ++ log_entry (access_entry engine acc result.2) pass.hart (Some (bank_in slot.old)) result.1 ∷ [] }
    ensures done { done_in slot.new ≡ done_in slot.old ++ access_in pass.hart.0 (What.Acc acc result.2) }
    ensures form { HasForm acc result.2 }
    ensures kept { (run : Run) → MakesAtDevices run book.now devices.old slot.old pass acc → AreDevicesAt run devices.new slot.new }
{
    let pass = look_at(book, slot, pass);
    let reply = devices.act(pass.hart(), &acc);
    let entry = Entry {
        engine,
        what: What::Acc(acc, reply),
    };
    let (pass, number) = note_at(book, slot, pass, entry);
    (pass, number, reply)
}

// Looks at the devices and, where the hart is woken, makes its pulse.
pub(crate) fn wake_at(
    book: &AccessRecord,
    devices: &mut Devices,
    slot: &mut Option<BankPass>,
    pass: Pass,
    engine: Engine,
) -> (Pass, Option<(u64, Reply)>)
    requires run { (run : Run) × MayWake run book.now devices.old slot.old pass }
    ensures woken { IfSome result.1 (λ r. Extends pass result.0 (access_entry engine (Access.Pulse false) r.1) (Some (bank_in slot.old)) r.0) }
    ensures seen { IfSome result.1 (λ r. pass.seen ≤ r.0) }
    ensures after { IfSome result.1 (λ r. result.0.seen ≡ r.0 + 1) }
    ensures answered { (run : Run) → MayWake run book.now devices.old slot.old pass → IfSome result.1 (λ r.
        IsAnswered run.setup (ram_banks run) (ram_banks run) (done_in slot.old) pass.hart.0 (Access.Pulse false) r.1) }
    ensures log { IfSome result.1 (λ r. log_in slot.new
        ≡ log_in slot.old ++ log_entry (access_entry engine (Access.Pulse false) r.1) pass.hart (Some (bank_in slot.old)) r.0 ∷ []) }
    ensures done { IfSome result.1 (λ r. done_in slot.new ≡ done_in slot.old ++ access_in pass.hart.0 (What.Acc (Access.Pulse false) r.1)) }
    ensures form { IfSome result.1 (λ r. HasForm (Access.Pulse false) r.1) }
    ensures value { IfSome result.1 (λ r. r.1.value ≡ 0) }
    ensures looked { IfNone result.1 (HasLooked pass result.0) }
    ensures unwoken { (run : Run) → MayWake run book.now devices.old slot.old pass → IfNone result.1 (waits_unwoken run result.0 ≡ true) }
    ensures in_slot { (run : Run) → MayWake run book.now devices.old slot.old pass
        → IfNone result.1 (is_unwoken_after run (done_in slot.old) pass.hart.0 ≡ true) }
    ensures log_stays { IfNone result.1 (log_in slot.new ≡ log_in slot.old) }
    ensures stays { IfNone result.1 (done_in slot.new ≡ done_in slot.old) }
    ensures kept { (run : Run) → MayWake run book.now devices.old slot.old pass → AreDevicesAt run devices.new slot.new }
{
    let pass = look_at(book, slot, pass);
    if !devices.woken(pass.hart()) {
        return (pass, None);
    }
    let acc = Access::Pulse { tick: false };
    let reply = devices.act(pass.hart(), &acc);
    let entry = Entry {
        engine,
        what: What::Acc(acc, reply),
    };
    let (pass, number) = note_at(book, slot, pass, entry);
    (pass, Some((number, reply)))
}
