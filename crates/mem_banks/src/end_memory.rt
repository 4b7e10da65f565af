ghost use Rattle.std.specs.Prelude.{◌≡◌, None};
ghost use Rattle.access_record.specs.Passes.{AreRecord};
ghost use Rattle.access_record.specs.Buses.{Run};
ghost use Rattle.mem_banks.specs.End.{MaySettle, bank_passes};

use access_record::{AccessRecord, BankPass, Closed, Founder, Pass};
use devices::Devices;
use mem_lines::Lines;
use std::marker::Model;

/// The memory at the end of a run: the lines of each bank in rising order, and the devices. Until it
/// is settled it also has the record and the passes of its banks, and it must be spent.
pub struct EndMemory {
    pub lines: Vec<Lines>,
    pub devices: Devices,
    pub(crate) unsettled: Option<Unsettled>,
}

// What isn't closed yet.
pub(crate) struct Unsettled {
    pub(crate) book: AccessRecord,
    pub(crate) passes: Vec<BankPass>,
}

impl Model for EndMemory {
    ghost use Rattle.mem_banks.specs.Memories.{memory_of};
    ghost use Rattle.mem_banks.specs.End.{Memory};

    ghost Value = { Memory };

    ghost view = { λ m. memory_of m.lines.items m.devices m.unsettled };
}

impl EndMemory {
    /// Closes the record, with its founder and a pass of each enrolled hart. The logs that the passes
    /// and those of the banks had are a record of as many events as are counted. The lines and the
    /// devices stay.
    pub fn settle(&mut self, founder: Founder, passes: Vec<Pass>) -> Closed
        requires of_run { (run : Run) × MaySettle run self.old founder passes.items }
        ensures closed { (run : Run) → MaySettle run self.old founder passes.items
            → AreRecord run.book.limits result.count passes.items (bank_passes self.old) }
        ensures settled { self.new.unsettled ≡ None }
        ensures lines { self.new.lines ≡ self.old.lines }
        ensures devices { self.new.devices ≡ self.old.devices }
    {
        let Some(unsettled) = self.unsettled.take() else {
            unreachable!()
        };
        let Unsettled {
            book,
            passes: bank_passes,
        } = unsettled;
        book.close(founder, passes, bank_passes)
    }

    /// Gives up what is left of memory that is settled.
    pub fn discard(self)
        requires settled { self.unsettled ≡ None }
    {
        let EndMemory {
            lines: _,
            devices: _,
            unsettled,
        } = self;
        let None = unsettled else { unreachable!() };
    }
}
