ghost use Rattle.std.specs.Prelude.{◌≡◌};

use crate::view::RecordSeat;
use flex_base::HartId;
use std::marker::Model;

/// The right to note a hart's events. Contracts see the hart's log, and a number of events that was
/// counted at least when the pass last saw the count; neither takes bytes. It can't be copied and must
/// be spent.
pub struct Pass {
    pub(crate) hart: HartId,
    pub(crate) seat: RecordSeat,
}

impl Model for Pass {
    ghost use Rattle.access_record.specs.Passes.{PassOfHart, pass_of, first_hart, IsPass};

    ghost Value = { PassOfHart };

    ghost view = { λ p. pass_of p.seat.table_id (first_hart p.hart p.seat.me.0.harts) };

    ghost invariant = { λ p. IsPass p.hart p.seat.me };
}

impl Pass {
    /// Whose pass it is.
    pub fn hart(&self) -> HartId
        ensures { result ≡ self.now.hart }
    {
        self.hart
    }
}

/// The right to note accesses of a bank. Contracts see the bank's log, and a number of events that was
/// counted at least when the pass last saw the count; neither takes bytes. It can't be copied and must
/// be spent.
pub struct BankPass {
    pub(crate) bank: u8,
    pub(crate) seat: RecordSeat,
}

impl Model for BankPass {
    ghost use Rattle.access_record.specs.Passes.{PassOfBank, bank_pass_of, first_bank, IsBankPass};

    ghost Value = { PassOfBank };

    ghost view = { λ p. bank_pass_of p.seat.table_id (first_bank p.bank p.seat.me.0.banks) };

    ghost invariant = { λ p. IsBankPass p.bank p.seat.me };
}

impl BankPass {
    /// Whose pass it is.
    pub fn bank(&self) -> u8
        ensures { result ≡ self.now.bank }
    {
        self.bank
    }
}

/// The right to enrol harts and banks, and to close the record. Contracts see who is enrolled. It
/// can't be copied and must be spent.
pub struct Founder {
    pub(crate) seat: RecordSeat,
}

impl Model for Founder {
    ghost use Rattle.access_record.specs.Passes.{Enrolment, enrolment_in, IsFounder};

    ghost Value = { Enrolment };

    ghost view = { λ p. enrolment_in p.seat.table_id p.seat.me.0 };

    ghost invariant = { λ p. IsFounder p.seat.me };
}

const _: () = prove!(size_of::<Pass>() == 1);

const _: () = prove!(size_of::<BankPass>() == 1);

const _: () = prove!(size_of::<Founder>() == 0);
