ghost use Rattle.std.specs.Prelude.{◌≡◌, ℕ, ◌+◌, ◌*◌, ◌<◌, ◌≤◌, ◌^◌, max, [], length, IfOk, None, Some, true, false};
ghost use Rattle.std.specs.List.{All};
ghost use Rattle.access_record.specs.Logs.{is_access, on_bank, of_hart, Ascends, log_entry};
ghost use Rattle.access_record.specs.Rule.{occurrences};
ghost use Rattle.access_record.specs.Gathered.{all_passes, enrolment_of};
ghost use Rattle.access_record.specs.Passes.{add_hart, add_bank, new_pass, new_bank_pass, add_entry, add_bank_entry, add_look, EachHasPass, EachHasBankPass, AreRecord};

use crate::entry::Entry;
use crate::gathered::{
    Gathered, end_table, give_bank_passes, give_passes, take_bank_passes, take_passes,
};
use crate::limits::Limits;
use crate::pass::{BankPass, Founder, Pass};
use crate::steps;
use crate::view::RecordTable;
use flex_base::HartId;
use std::alloc::{AllocError, Global};
use std::marker::{Brand, Model};

/// A record that was closed.
#[derive(Clone, Copy, Debug, PartialEq, Eq)]
pub struct Closed {
    /// How many events it counted.
    pub count: u64,
}

/// The record of a run: the number of its events, and the rule that ties the logs of its passes.
/// Threads share it by reference.
#[derive(Drop)]
pub struct AccessRecord {
    table: RecordTable,
}

impl Model for AccessRecord {
    ghost use Rattle.access_record.specs.Passes.{RecordIdentity, IsRecordTable};

    ghost Value = { RecordIdentity };

    ghost view = { λ r. record { id = r.table.shared.table_id; limits = r.table.shared.key } };

    ghost invariant = { λ r. IsRecordTable r.table.shared.table_id r.table.shared.key };
}

impl AccessRecord {
    /// A record of so many harts and banks, with room for so many entries in each hart's log. It has
    /// no entry, and nobody is enrolled. The devices count as a bank, the last one. The error is
    /// want of memory.
    pub fn new(
        alloc: Global,
        harts: u8,
        banks: u8,
        room: u64,
    ) -> Result<(AccessRecord, Founder), AllocError>
        requires some_hart { 1 ≤ harts }
        requires some_bank { 1 ≤ banks }
        requires countable { harts * room < 2 ^ 63 }
        ensures limits { IfOk result (λ r. r.0.limits ≡ record { harts = harts; banks = banks; room = room }) }
        ensures founder { IfOk result (λ r. (r.1.id ≡ r.0.id) × (r.1.harts ≡ []) × (r.1.banks ≡ [])) }
    {
        let limits = Limits { harts, banks, room };
        let (table, seat) = RecordTable::of_words(alloc, &[0], &limits)?;
        Ok((AccessRecord { table }, Founder { seat }))
    }

    /// Enrols a hart. Its pass has an empty log.
    pub fn enrol_hart(&self, founder: Founder, hart: HartId) -> (Founder, Pass)
        requires record { founder.id ≡ self.now.id }
        requires in_range { hart.0 < self.now.limits.harts }
        requires not_yet { occurrences hart.0 founder.harts ≡ 0 }
        ensures founder { result.0 ≡ add_hart founder hart }
        ensures pass { result.1 ≡ new_pass founder.id hart }
    {
        let Founder { mut seat } = founder;
        let new = steps::enrol_hart::<Brand>(&self.table, &mut seat, hart);
        (Founder { seat }, Pass { hart, seat: new })
    }

    /// Enrols a bank. Its pass has an empty log.
    pub fn enrol_bank(&self, founder: Founder, bank: u8) -> (Founder, BankPass)
        requires record { founder.id ≡ self.now.id }
        requires in_range { bank < self.now.limits.banks }
        requires not_yet { occurrences bank founder.banks ≡ 0 }
        ensures founder { result.0 ≡ add_bank founder bank }
        ensures pass { result.1 ≡ new_bank_pass founder.id bank }
    {
        let Founder { mut seat } = founder;
        let new = steps::enrol_bank::<Brand>(&self.table, &mut seat, bank);
        (Founder { seat }, BankPass { bank, seat: new })
    }

    /// Notes an end or a handover of a hart, and answers its number. The number is above all in the
    /// hart's log, and at least what the pass has seen.
    pub fn note_own(&self, pass: Pass, entry: Entry) -> (Pass, u64)
        requires record { pass.id ≡ self.now.id }
        requires room { length pass.log < self.now.limits.room }
        requires own { is_access entry.what ≡ false }
        ensures pass { result.0 ≡ add_entry pass (log_entry entry pass.hart None result.1) }
        ensures above { Ascends 0 result.1 pass.log }
        ensures seen { pass.seen ≤ result.1 }
    {
        let Pass { hart, mut seat } = pass;
        let number = steps::note_own::<Brand>(&self.table, &mut seat, &entry);
        (Pass { hart, seat }, number)
    }

    /// Notes an access of a hart at a bank in both logs by one number, which it answers. The number is
    /// above all in both logs and at least what each pass has seen, and so far the logs agree: the
    /// hart's entries that name the bank are the bank's entries that name the hart.
    pub fn note_both(&self, pass: Pass, bank_pass: BankPass, entry: Entry) -> (Pass, BankPass, u64)
        requires record { (pass.id ≡ self.now.id) × (bank_pass.id ≡ self.now.id) }
        requires room { length pass.log < self.now.limits.room }
        requires access { is_access entry.what ≡ true }
        ensures pass { result.0 ≡ add_entry pass (log_entry entry pass.hart (Some bank_pass.bank) result.2) }
        ensures bank_pass { result.1
            ≡ add_bank_entry bank_pass (log_entry entry pass.hart (Some bank_pass.bank) result.2) }
        ensures above { Ascends 0 result.2 pass.log × Ascends 0 result.2 bank_pass.log }
        ensures seen { (pass.seen ≤ result.2) × (bank_pass.seen ≤ result.2) }
        ensures agree { on_bank bank_pass.bank pass.log ≡ of_hart pass.hart.0 bank_pass.log }
    {
        let Pass { hart, mut seat } = pass;
        let BankPass { bank, seat: other } = bank_pass;
        steps::join_seats(&self.table, &mut seat, other);
        let number = steps::note_both::<Brand>(&self.table, &mut seat, &entry);
        let other = steps::split_banks(&self.table, &mut seat);
        (Pass { hart, seat }, BankPass { bank, seat: other }, number)
    }

    /// Looks at the devices' log. The pass keeps it as what it looked at last, each of the two passes
    /// learns what the other has seen, no log changes, and the logs agree as for `note_both`.
    pub fn look(&self, pass: Pass, bank_pass: BankPass) -> (Pass, BankPass)
        requires record { (pass.id ≡ self.now.id) × (bank_pass.id ≡ self.now.id) }
        requires devices { bank_pass.bank + 1 ≡ self.now.limits.banks }
        ensures pass { result.0
            ≡ record (add_look pass bank_pass.log) { seen = max pass.seen bank_pass.seen } }
        ensures bank_pass { result.1 ≡ record bank_pass { seen = max pass.seen bank_pass.seen } }
        ensures agree { on_bank bank_pass.bank pass.log ≡ of_hart pass.hart.0 bank_pass.log }
    {
        let Pass { hart, mut seat } = pass;
        let BankPass { bank, seat: other } = bank_pass;
        steps::join_seats(&self.table, &mut seat, other);
        steps::look(&self.table, &mut seat);
        let other = steps::split_banks(&self.table, &mut seat);
        (Pass { hart, seat }, BankPass { bank, seat: other })
    }

    /// Each of the two passes learns what the other has seen. No log changes.
    pub fn share(&self, pass: Pass, bank_pass: BankPass) -> (Pass, BankPass)
        requires record { (pass.id ≡ self.now.id) × (bank_pass.id ≡ self.now.id) }
        ensures pass { result.0 ≡ record pass { seen = max pass.seen bank_pass.seen } }
        ensures bank_pass { result.1 ≡ record bank_pass { seen = max pass.seen bank_pass.seen } }
    {
        let Pass { hart, mut seat } = pass;
        let BankPass { bank, seat: other } = bank_pass;
        steps::join_seats(&self.table, &mut seat, other);
        let other = steps::split_banks_shared(&self.table, &mut seat);
        (Pass { hart, seat }, BankPass { bank, seat: other })
    }

    /// Ends the record, with a pass of each enrolled hart and bank. The logs of a run of as many
    /// events as were counted are those that the passes had.
    pub fn close(self, founder: Founder, passes: Vec<Pass>, bank_passes: Vec<BankPass>) -> Closed
        requires record { founder.id ≡ self.id }
        requires pass_records { All (λ p. p.id ≡ self.id) passes.items }
        requires bank_pass_records { All (λ p. p.id ≡ self.id) bank_passes.items }
        requires harts { EachHasPass founder.harts passes.items }
        requires banks { EachHasBankPass founder.banks bank_passes.items }
        ensures { AreRecord self.limits result.count passes.items bank_passes.items }
    {
        let all = self.gather(founder, passes, bank_passes);
        let AccessRecord { table } = self;
        Closed {
            count: end_table(table, all),
        }
    }

    /// Takes all passes apart for a while, as between two rounds of a run. The logs of all are then
    /// known to be a record.
    pub fn gather(
        &self,
        founder: Founder,
        mut passes: Vec<Pass>,
        mut bank_passes: Vec<BankPass>,
    ) -> Gathered
        requires record { founder.id ≡ self.now.id }
        requires pass_records { All (λ p. p.id ≡ self.now.id) passes.items }
        requires bank_pass_records { All (λ p. p.id ≡ self.now.id) bank_passes.items }
        requires harts { EachHasPass founder.harts passes.items }
        requires banks { EachHasBankPass founder.banks bank_passes.items }
        ensures same { result ≡ all_passes founder passes.items bank_passes.items }
        ensures known { (n : ℕ) × AreRecord self.now.limits n passes.items bank_passes.items }
    {
        let Founder { mut seat } = founder;
        let count = passes.len();
        let bank_count = bank_passes.len();
        let mut harts = [HartId(0); 256];
        let mut banks = [0; 256];
        take_passes(&self.table, &mut seat, &mut passes, &mut harts);
        take_bank_passes(&self.table, &mut seat, &mut bank_passes, &mut banks);
        steps::learn_rule::<Brand>(&self.table, &mut seat);
        Gathered {
            seat,
            harts,
            count,
            banks,
            bank_count,
            passes,
            bank_passes,
        }
    }

    /// Makes the founder and the passes again, in their order and with the logs that they had.
    pub fn part(&self, all: Gathered) -> (Founder, Vec<Pass>, Vec<BankPass>)
        requires record { all.id ≡ self.now.id }
        ensures founder { result.0 ≡ enrolment_of all }
        ensures passes { result.1.items ≡ all.passes }
        ensures bank_passes { result.2.items ≡ all.bank_passes }
    {
        let Gathered {
            mut seat,
            harts,
            count,
            banks,
            bank_count,
            mut passes,
            mut bank_passes,
        } = all;
        give_passes(&self.table, &mut seat, &harts, count, &mut passes);
        give_bank_passes(&self.table, &mut seat, &banks, bank_count, &mut bank_passes);
        (Founder { seat }, passes, bank_passes)
    }
}
