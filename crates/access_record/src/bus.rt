ghost use Rattle.std.specs.Prelude.{◌≡◌, true, false, None, Some, IfNone, IfSome};
ghost use Rattle.flex_base.specs.Forms.{HasForm, IsPlaced};
ghost use Rattle.access_record.specs.Logs.{is_access};
ghost use Rattle.access_record.specs.Buses.{place_in, access_entry, IsGiven, Wants, waits, engine_of, HasByte, Extends, HasLooked, waits_unwoken};
ghost use Rattle.access_record.specs.Histories.{InHistory, IsUnwokenIn};
ghost use Rattle.flex_base.specs.declared.event.What.TheVariants as What;

use crate::entry::Entry;
use crate::pass::Pass;
use flex_base::{Access, Engine, Reply};

/// How engines reach memory and the devices, and note what harts do.
///
/// A call takes a hart's pass and gives it back, of the same hart and record and with a log that has
/// one entry more. The number that it answers is that of the entry, and is above all in the log. No
/// call refuses or takes memory. A bus whose memory lies under locks may wait.
pub trait Bus {
    ghost use Rattle.std.specs.Prelude.{ℕ, Option};
    ghost use Rattle.access_record.specs.Buses.{Run};
    ghost use Rattle.access_record.specs.Histories.{History};

    /// The record that the bus is of, and the image, the settings and the console input.
    ghost run: { Self → Run };

    /// What a bus of one thread has done: the least number that may come next, and the accesses of
    /// each bank in order, those of the devices last. A bus that threads share has none, since others
    /// use its banks between two of its calls.
    ghost history: { Self → Option History };

    /// Makes the access that the hart asks, and answers its number and the reply, which has the
    /// access's form.
    ///
    /// The hart doesn't wait. An access that transmits a byte is made by a hart that has transmitted
    /// fewer bytes than its budget.
    fn access(&mut self, pass: Pass, engine: Engine, acc: Access) -> (Pass, u64, Reply)
        requires given { IsGiven (run self.old) pass }
        requires wanted { Wants (run self.old) pass acc }
        requires placed { IsPlaced (run self.old).setup.harts (run self.old).setup.ram acc }
        requires awake { waits pass ≡ false }
        requires console { HasByte (run self.old) pass acc }
        ensures noted { Extends pass result.0 (access_entry engine acc result.2) (Some (place_in (run self.old) acc)) result.1 }
        ensures history { InHistory (run self.old) (history self.old) pass.hart.0 (What.Acc acc result.2) result.1 (history self.new) }
        ensures form { HasForm acc result.2 }
        ensures same { run self.new ≡ run self.old };

    /// Makes the pulse of a hart that waits, where it is woken, and answers its number and the reply,
    /// whose value is 0.
    ///
    /// The engine is that in which the hart began to wait. None comes only where the pass has looked
    /// at the devices in this call, and the hart waits unwoken in the log that it saw. The pass's own
    /// log is then as before.
    fn wake(&mut self, pass: Pass, engine: Engine) -> (Pass, Option<(u64, Reply)>)
        requires given { IsGiven (run self.old) pass }
        requires waits { waits pass ≡ true }
        requires engine { engine_of pass ≡ Some engine }
        ensures woken { IfSome result.1 (λ r. Extends pass result.0 (access_entry engine (Access.Pulse false) r.1)
            (Some (place_in (run self.old) (Access.Pulse false))) r.0) }
        ensures history { IfSome result.1 (λ r. InHistory (run self.old) (history self.old) pass.hart.0
            (What.Acc (Access.Pulse false) r.1) r.0 (history self.new)) }
        ensures form { IfSome result.1 (λ r. HasForm (Access.Pulse false) r.1) }
        ensures value { IfSome result.1 (λ r. r.1.value ≡ 0) }
        ensures looked { IfNone result.1 (HasLooked pass result.0) }
        ensures unwoken { IfNone result.1 (waits_unwoken (run self.old) result.0 ≡ true) }
        ensures in_history { IfNone result.1 (IsUnwokenIn (run self.old) (history self.old) pass.hart.0) }
        ensures stays { IfNone result.1 (history self.new ≡ history self.old) }
        ensures same { run self.new ≡ run self.old };

    /// Notes an end or a handover of a hart, and answers its number.
    fn note(&mut self, pass: Pass, entry: Entry) -> (Pass, u64)
        requires given { IsGiven (run self.old) pass }
        requires own { is_access entry.what ≡ false }
        ensures noted { Extends pass result.0 entry None result.1 }
        ensures history { InHistory (run self.old) (history self.old) pass.hart.0 entry.what result.1 (history self.new) }
        ensures same { run self.new ≡ run self.old };
}
