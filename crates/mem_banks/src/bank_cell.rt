ghost use Rattle.std.specs.Prelude.{◌≡◌, [], ◌∷◌, ◌++◌, true, Some};
ghost use Rattle.flex_base.specs.Forms.{HasForm};
ghost use Rattle.flex_base.specs.FlatMemory.{is_ram_access};
ghost use Rattle.flex_base.specs.Banks.{accesses_of, IsAnswered};
ghost use Rattle.mem_lines.specs.Bank.{IsSame};
ghost use Rattle.access_record.specs.Logs.{log_entry};
ghost use Rattle.access_record.specs.Buses.{ram_banks, place_in, events_of, access_entry, Extends};
ghost use Rattle.mem_banks.specs.Kept.{IsBankOf, MayMake};
ghost use Rattle.mem_banks.specs.Locked.{locked_bank, IsLockedBank};

use crate::at_bank::access_bank;
use crate::run_name::RunName;
use access_record::{AccessRecord, BankPass, Pass};
use flex_base::{Access, Engine, Reply};
use mem_lines::Lines;
use std::marker::{Model, PhantomData};

/// What lies under the lock of a bank: its lines, and the pass whose log they are the replay of. The
/// pass is of the record of the named run.
pub struct BankCell<N: RunName> {
    lines: Lines,
    slot: Option<BankPass>,
    of: PhantomData<N>,
}

impl<N: RunName> Model for BankCell<N> {
    ghost use Rattle.mem_banks.specs.Locked.{LockedBank, locked_bank, IsLockedBank};

    ghost Value = { LockedBank };

    ghost view = { λ c. locked_bank c.lines c.slot };

    ghost invariant = { λ c. IsLockedBank N.run c.lines c.slot };
}

impl<N: RunName> BankCell<N> {
    pub(crate) fn new(lines: Lines, pass: BankPass) -> BankCell<N>
        requires kept { IsLockedBank N.run lines (Some pass) }
        ensures { result ≡ locked_bank lines (Some pass) }
    {
        BankCell {
            lines,
            slot: Some(pass),
            of: PhantomData,
        }
    }

    pub(crate) fn into_parts(self) -> (Lines, BankPass)
        ensures kept { IsLockedBank N.run result.0 (Some result.1) }
        ensures same { self ≡ locked_bank result.0 (Some result.1) }
    {
        let BankCell { lines, slot, of: _ } = self;
        let Some(pass) = slot else { unreachable!() };
        (lines, pass)
    }

    /// Which bank it is. Its lines are the replay of its log, which is such as a bank's log must be.
    pub fn bank(&self) -> u8
        ensures bank { result ≡ self.now.lines.bank }
        ensures kept { IsBankOf N.run self.now.lines.bank self.now.lines self.now.log }
    {
        let Some(pass) = &self.slot else {
            unreachable!()
        };
        pass.bank()
    }

    /// Makes an access of this bank and then one note of it, and answers its number and the reply.
    ///
    /// The conditions are those of a bus, except that no story need ask the access. The record is that
    /// of the named run.
    pub fn access(
        &mut self,
        book: &AccessRecord,
        pass: Pass,
        engine: Engine,
        acc: Access,
    ) -> (Pass, u64, Reply)
        requires book { book.now ≡ N.run.book }
        requires may { MayMake N.run pass acc }
        requires ram { is_ram_access acc ≡ true }
        requires here { place_in N.run acc ≡ self.old.lines.bank }
        ensures noted { Extends pass result.0 (access_entry engine acc result.2) (Some self.old.lines.bank) result.1 }
        ensures log { self.new.log ≡ self.old.log ++ log_entry (access_entry engine acc result.2) pass.hart (Some self.old.lines.bank) result.1 ∷ [] }
        ensures answered { IsAnswered N.run.setup (ram_banks N.run) self.old.lines.bank (accesses_of (events_of self.old.log)) pass.hart.0 acc result.2 }
        ensures form { HasForm acc result.2 }
        ensures same { IsSame self.old.lines self.new.lines }
    {
        access_bank(book, &mut self.lines, &mut self.slot, pass, engine, acc)
    }
}
