//! Where the pass of a bank lies between two accesses. It must be spent, so behind a `&mut` it is
//! taken out, and put back.
ghost use Rattle.std.specs.Prelude.{◌≡◌, ◌+◌, ◌<◌, ◌≤◌, max, [], ◌∷◌, ◌++◌, length, true, Some};
ghost use Rattle.access_record.specs.Logs.{is_access, on_bank, of_hart, log_entry};
ghost use Rattle.access_record.specs.Passes.{add_look};
ghost use Rattle.access_record.specs.Buses.{Extends};
ghost use Rattle.mem_banks.specs.Slots.{pass_of, bank_in, log_in, seen_in, HasPass};

use access_record::{AccessRecord, BankPass, Entry, Pass};

// Notes an access in the hart's log and in that of the bank, by one number.
pub(crate) fn note_at(
    book: &AccessRecord,
    slot: &mut Option<BankPass>,
    pass: Pass,
    entry: Entry,
) -> (Pass, u64)
    requires book { pass.id ≡ book.now.id }
    requires held { HasPass book.now (bank_in slot.old) slot.old }
    requires room { length pass.log < book.now.limits.room }
    requires access { is_access entry.what ≡ true }
    ensures noted { Extends pass result.0 entry (Some (bank_in slot.old)) result.1 }
    ensures held { slot.new ≡ Some (pass_of book.now (bank_in slot.old)
        (log_in slot.old ++ log_entry entry pass.hart (Some (bank_in slot.old)) result.1 ∷ []) (result.1 + 1)) }
    ensures seen { (pass.seen ≤ result.1) × (seen_in slot.old ≤ result.1) }
    ensures after { result.0.seen ≡ result.1 + 1 }
    ensures looks { (result.0.looks ≡ pass.looks) × (result.0.looked ≡ pass.looked) }
{
    let Some(bank_pass) = slot.take() else {
        unreachable!()
    };
    let (pass, bank_pass, number) = book.note_both(pass, bank_pass, entry);
    let left = slot.replace(bank_pass);
    let None = left else { unreachable!() };
    (pass, number)
}

// Looks at the devices' log. The logs of the hart and of the devices agree, and each pass learns what
// the other has seen.
pub(crate) fn look_at(book: &AccessRecord, slot: &mut Option<BankPass>, pass: Pass) -> Pass
    requires book { pass.id ≡ book.now.id }
    requires held { HasPass book.now (bank_in slot.old) slot.old }
    requires devices { bank_in slot.old + 1 ≡ book.now.limits.banks }
    ensures pass { result ≡ record (add_look pass (log_in slot.old)) { seen = max pass.seen (seen_in slot.old) } }
    ensures slot { slot.new ≡ Some (pass_of book.now (bank_in slot.old) (log_in slot.old) (max pass.seen (seen_in slot.old))) }
    ensures agree { on_bank (bank_in slot.old) pass.log ≡ of_hart pass.hart.0 (log_in slot.old) }
{
    let Some(bank_pass) = slot.take() else {
        unreachable!()
    };
    let (pass, bank_pass) = book.look(pass, bank_pass);
    let left = slot.replace(bank_pass);
    let None = left else { unreachable!() };
    pass
}

// Each of the two passes learns what the other has seen.
pub(crate) fn share_at(book: &AccessRecord, slot: &mut Option<BankPass>, pass: Pass) -> Pass
    requires book { pass.id ≡ book.now.id }
    requires held { HasPass book.now (bank_in slot.old) slot.old }
    ensures pass { result ≡ record pass { seen = max pass.seen (seen_in slot.old) } }
    ensures slot { slot.new ≡ Some (pass_of book.now (bank_in slot.old) (log_in slot.old) (max pass.seen (seen_in slot.old))) }
{
    let Some(bank_pass) = slot.take() else {
        unreachable!()
    };
    let (pass, bank_pass) = book.share(pass, bank_pass);
    let left = slot.replace(bank_pass);
    let None = left else { unreachable!() };
    pass
}
