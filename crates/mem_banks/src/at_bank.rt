ghost use Rattle.std.specs.Prelude.{◌≡◌, ◌+◌, ◌≤◌, [], ◌∷◌, ◌++◌, Some};
ghost use Rattle.flex_base.specs.Forms.{HasForm};
ghost use Rattle.flex_base.specs.Banks.{access_in, IsAnswered};
ghost use Rattle.access_record.specs.Logs.{log_entry};
ghost use Rattle.access_record.specs.Buses.{Run, ram_banks, access_entry, Extends};
ghost use Rattle.mem_banks.specs.Slots.{log_in, done_in, seen_in};
ghost use Rattle.mem_banks.specs.Kept.{IsBankAt, MakesAt};

use crate::slots::note_at;
use access_record::{AccessRecord, BankPass, Entry, Pass};
use flex_base::{Access, Engine, Reply, What};
use mem_lines::Lines;

// Makes an access of this bank: what the lines reply is noted in the bank's log.
pub(crate) fn access_bank(
    book: &AccessRecord,
    lines: &mut Lines,
    slot: &mut Option<BankPass>,
    pass: Pass,
    engine: Engine,
    acc: Access,
) -> (Pass, u64, Reply)
    requires run { (run : Run) × MakesAt run book.now lines.old slot.old pass acc }
    ensures noted { Extends pass result.0 (access_entry engine acc result.2) (Some lines.old.bank) result.1 }
    ensures seen { (pass.seen ≤ result.1) × (seen_in slot.old ≤ result.1) }
    ensures after { seen_in slot.new ≡ result.1 + 1 }
    ensures answered { (run : Run) → MakesAt run book.now lines.old slot.old pass acc
        → IsAnswered run.setup (ram_banks run) lines.old.bank (done_in slot.old) pass.hart.0 acc result.2 }
    ensures log { log_in slot.new ≡ log_in slot.old ++ log_entry (access_entry engine acc result.2) pass.hart (Some lines.old.bank) result.1 ∷ [] }
    ensures done { done_in slot.new ≡ done_in slot.old ++ access_in pass.hart.0 (What.Acc acc result.2) }
    ensures form { HasForm acc result.2 }
    ensures kept { (run : Run) → MakesAt run book.now lines.old slot.old pass acc → IsBankAt run lines.old.bank lines.new slot.new }
{
    let reply = lines.act(pass.hart(), &acc);
    let entry = Entry {
        engine,
        what: What::Acc(acc, reply),
    };
    let (pass, number) = note_at(book, slot, pass, entry);
    (pass, number, reply)
}
