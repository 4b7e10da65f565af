//! All logs of a record in one seat for a while, and their passes again.
ghost use Rattle.std.specs.Prelude.{◌≡◌, ◌≤◌, [], length, map};
ghost use Rattle.std.specs.List.{All};
ghost use Rattle.std.specs.Vec.{vec_len, vec_capacity};
ghost use Rattle.access_record.specs.Steps.{IsSeatOf};
ghost use Rattle.access_record.specs.Passes.{EachHasPass, EachHasBankPass, AreRecord, with_passes, with_bank_passes, view_of_pass, view_of_bank_pass, pass_of, first_hart, IsPass, bank_pass_of, first_bank, IsBankPass};
ghost use Rattle.access_record.specs.Gathered.{ListsHarts, ListsBanks, with_hart_views, with_bank_views};

use crate::pass::{BankPass, Pass};
use crate::steps;
use crate::view::{RecordSeat, RecordTable};
use flex_base::HartId;
use std::marker::Model;

/// All passes of a record, taken apart: one seat has all logs. It keeps the room of the lists of
/// passes, and must be spent.
pub struct Gathered {
    pub(crate) seat: RecordSeat,
    // The harts of the passes in their order, and the banks.
    pub(crate) harts: [HartId; 256],
    pub(crate) count: usize,
    pub(crate) banks: [u8; 256],
    pub(crate) bank_count: usize,
    // Empty, with the room for the passes.
    pub(crate) passes: Vec<Pass>,
    pub(crate) bank_passes: Vec<BankPass>,
}

impl Model for Gathered {
    ghost use Rattle.std.specs.Prelude.{◌≡◌};
    ghost use Rattle.std.specs.Vec.{vec_len, vec_capacity};
    ghost use Rattle.access_record.specs.Gathered.{AllPasses, all_in_view, IsGathered};

    ghost Value = { AllPasses };

    ghost view = { λ g. all_in_view g.seat.table_id g.seat.me.0 };

    ghost invariant = { λ g. (vec_len g.passes ≡ 0) × (vec_len g.bank_passes ≡ 0)
        × IsGathered g.seat.me g.harts g.banks g.count g.bank_count
        (vec_capacity g.passes) (vec_capacity g.bank_passes) };
}

// The seat takes in the logs of these passes, and their harts are listed in order. There are never
// more passes than harts, so no place of the list is used twice; that is known only once all are taken.
pub(crate) fn take_passes(
    table: &RecordTable,
    seat: &mut RecordSeat,
    passes: &mut Vec<Pass>,
    harts: &mut [HartId; 256],
)
    requires table { IsSeatOf seat.old.table_id table.now.shared.table_id }
    requires record { All (λ p. p.id ≡ table.now.shared.table_id) passes.old.items }
    ensures table { seat.new.table_id ≡ seat.old.table_id }
    ensures logs { seat.new.me ≡ (with_passes passes.old.items seat.old.me.0, seat.old.me.1) }
    ensures harts { length passes.old.items ≤ 256
        → ListsHarts harts.new 0 (map view_of_pass passes.old.items) }
    ensures room { (vec_len passes.new ≡ 0) × (vec_capacity passes.new ≡ vec_capacity passes.old) }
{
    while let Some(pass) = passes.pop() {
        let Pass { hart, seat: other } = pass;
        harts[passes.len() % 256] = hart;
        steps::join_seats(table, seat, other);
    }
}

// The seat takes in the logs of these banks' passes, and their banks are listed in order.
pub(crate) fn take_bank_passes(
    table: &RecordTable,
    seat: &mut RecordSeat,
    passes: &mut Vec<BankPass>,
    banks: &mut [u8; 256],
)
    requires table { IsSeatOf seat.old.table_id table.now.shared.table_id }
    requires record { All (λ p. p.id ≡ table.now.shared.table_id) passes.old.items }
    ensures table { seat.new.table_id ≡ seat.old.table_id }
    ensures logs { seat.new.me ≡ (with_bank_passes passes.old.items seat.old.me.0, seat.old.me.1) }
    ensures banks { length passes.old.items ≤ 256
        → ListsBanks banks.new 0 (map view_of_bank_pass passes.old.items) }
    ensures room { (vec_len passes.new ≡ 0) × (vec_capacity passes.new ≡ vec_capacity passes.old) }
{
    while let Some(pass) = passes.pop() {
        let BankPass { bank, seat: other } = pass;
        banks[passes.len() % 256] = bank;
        steps::join_seats(table, seat, other);
    }
}

// A hart's pass of a seat that has its log.
fn pass_of_seat(hart: HartId, seat: RecordSeat) -> Pass
    requires { IsPass hart seat.me }
    ensures { result ≡ pass_of seat.table_id (first_hart hart seat.me.0.harts) }
{
    Pass { hart, seat }
}

// Makes the passes again, in their order.
pub(crate) fn give_passes(
    table: &RecordTable,
    seat: &mut RecordSeat,
    harts: &[HartId; 256],
    count: usize,
    passes: &mut Vec<Pass>,
)
    requires table { IsSeatOf seat.old.table_id table.now.shared.table_id }
    requires room { (vec_len passes.old ≡ 0) × (count ≤ vec_capacity passes.old) × (count ≤ 256) }
    requires harts { (length seat.old.me.0.harts ≡ count) × ListsHarts harts.now 0 seat.old.me.0.harts }
    ensures table { seat.new.table_id ≡ seat.old.table_id }
    ensures rest { seat.new.me ≡ (with_hart_views seat.old.me.0 [], seat.old.me.1) }
    ensures passes { passes.new.items ≡ map (pass_of seat.old.table_id) seat.old.me.0.harts }
{
    while passes.len() < count {
        let other = steps::split_first_hart(table, seat);
        let pass = pass_of_seat(harts[passes.len()], other);
        let pushed = passes.push(pass);
        let Ok(()) = pushed else { unreachable!() };
    }
}

// A bank's pass of a seat that has its log.
fn bank_pass_of_seat(bank: u8, seat: RecordSeat) -> BankPass
    requires { IsBankPass bank seat.me }
    ensures { result ≡ bank_pass_of seat.table_id (first_bank bank seat.me.0.banks) }
{
    BankPass { bank, seat }
}

// Makes the banks' passes again, in their order.
pub(crate) fn give_bank_passes(
    table: &RecordTable,
    seat: &mut RecordSeat,
    banks: &[u8; 256],
    count: usize,
    passes: &mut Vec<BankPass>,
)
    requires table { IsSeatOf seat.old.table_id table.now.shared.table_id }
    requires room { (vec_len passes.old ≡ 0) × (count ≤ vec_capacity passes.old) × (count ≤ 256) }
    requires banks { (length seat.old.me.0.banks ≡ count) × ListsBanks banks.now 0 seat.old.me.0.banks }
    ensures table { seat.new.table_id ≡ seat.old.table_id }
    ensures rest { seat.new.me ≡ (with_bank_views seat.old.me.0 [], seat.old.me.1) }
    ensures passes { passes.new.items ≡ map (bank_pass_of seat.old.table_id) seat.old.me.0.banks }
{
    while passes.len() < count {
        let other = steps::split_first_bank(table, seat);
        let pass = bank_pass_of_seat(banks[passes.len()], other);
        let pushed = passes.push(pass);
        let Ok(()) = pushed else { unreachable!() };
    }
}

// Ends a record's table by the seat that has all logs, and gives how many events were counted.
pub(crate) fn end_table(table: RecordTable, all: Gathered) -> u64
    requires record { all.id ≡ table.shared.table_id }
    requires table { (table.shared.table_id.words ≡ 1) × (table.shared.table_id.slots ≡ 0) }
    requires harts { EachHasPass all.harts all.passes }
    requires banks { EachHasBankPass all.banks all.bank_passes }
    ensures { AreRecord table.shared.key result all.passes all.bank_passes }
{
    let Gathered {
        seat,
        harts: _,
        count: _,
        banks: _,
        bank_count: _,
        passes,
        bank_passes,
    } = all;
    passes.destroy_empty();
    bank_passes.destroy_empty();
    let closed = table.close_with(seat);
    let count = closed.word(0);
    closed.free();
    count
}
