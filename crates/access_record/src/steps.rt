//! The steps on the record's word, each on one seat. Each keeps the rule of the record.
//!
//! The table's step tells its `Play` neither the entry nor the hart of the call, so each step
//! function names them by a type parameter, which the public call picks.
ghost use Rattle.std.specs.Prelude.{◌≡◌, ◌<◌, true, false, [], ◌∷◌, length};
ghost use Rattle.access_record.specs.declared.view.HartView.{HartView};
ghost use Rattle.access_record.specs.declared.view.BankView.{BankView};
ghost use Rattle.access_record.specs.Logs.{is_access};
ghost use Rattle.access_record.specs.Rule.{occurrences, view_of};
ghost use Rattle.access_record.specs.Steps.{IsSeatOf, IsCountable, union, without_banks, banks_alone, without_banks_shared, banks_alone_shared, with_hart, new_hart, with_bank, new_bank, with_entry, with_look, AgreesAt, without_first_hart, first_hart_alone, without_first_bank, first_bank_alone, HasAllLogs, IsWhole};

use crate::entry::Entry;
use crate::view::{RecordSeat, RecordTable, View};
use atomic_table::{Join, Play, Split};
use flex_base::HartId;
use std::marker::{Brand, PhantomData};

// Names a hart. Each call picks its own.
pub(crate) trait HartName {
    ghost use Rattle.flex_base.specs.declared.hart.HartId.{HartId};

    ghost hart: { HartId };
}

impl HartName for Brand {
    ghost use Rattle.access_record.specs.Steps.{some_hart};

    ghost hart = { some_hart };
}

// Names a bank.
pub(crate) trait BankName {
    ghost use Rattle.std.specs.Prelude.{ℕ};

    ghost bank: { ℕ };
}

impl BankName for Brand {
    ghost bank = { 0 };
}

// Names what is noted.
pub(crate) trait EntryName {
    ghost use Rattle.access_record.specs.declared.entry.Entry.{Entry};

    ghost entry: { Entry };
}

impl EntryName for Brand {
    ghost use Rattle.access_record.specs.Steps.{some_entry};

    ghost entry = { some_entry };
}

// Names a record's limits.
pub(crate) trait LimitsName {
    ghost use Rattle.access_record.specs.declared.limits.Limits.{Limits};

    ghost limits: { Limits };
}

impl LimitsName for Brand {
    ghost use Rattle.access_record.specs.Steps.{some_limits};

    ghost limits = { some_limits };
}

// The founder lists one hart more, and a new seat has its log.
pub(crate) struct EnrolsHart<N> {
    of: PhantomData<N>,
}

impl<N: HartName> Split<View> for EnrolsHart<N> {
    ghost use Rattle.access_record.specs.Steps.{with_hart, new_hart};

    ghost left = { with_hart N.hart };

    ghost right = { λ _. new_hart N.hart };
}

pub(crate) fn enrol_hart<N: HartName>(
    table: &RecordTable,
    seat: &mut RecordSeat,
    hart: HartId,
) -> RecordSeat
    requires name { N.hart ≡ hart }
    requires table { IsSeatOf seat.old.table_id table.now.shared.table_id }
    requires founder { seat.old.me.0.founder ≡ true }
    requires not_yet { occurrences hart.0 seat.old.me.0.enrolled_harts ≡ 0 }
    requires in_range { hart.0 < table.now.shared.key.harts }
    ensures table { (seat.new.table_id ≡ seat.old.table_id) × (result.table_id ≡ seat.old.table_id) }
    ensures founder { seat.new.me ≡ (with_hart hart seat.old.me.0, seat.old.me.1) }
    ensures new { result.me ≡ (new_hart hart, []) }
{
    table.shared.split_seat::<EnrolsHart<N>>(seat)
}

// The founder lists one bank more, and a new seat has its log.
pub(crate) struct EnrolsBank<N> {
    of: PhantomData<N>,
}

impl<N: BankName> Split<View> for EnrolsBank<N> {
    ghost use Rattle.access_record.specs.Steps.{with_bank, new_bank};

    ghost left = { with_bank N.bank };

    ghost right = { λ _. new_bank N.bank };
}

pub(crate) fn enrol_bank<N: BankName>(
    table: &RecordTable,
    seat: &mut RecordSeat,
    bank: u8,
) -> RecordSeat
    requires name { N.bank ≡ bank }
    requires table { IsSeatOf seat.old.table_id table.now.shared.table_id }
    requires founder { seat.old.me.0.founder ≡ true }
    requires not_yet { occurrences bank seat.old.me.0.enrolled_banks ≡ 0 }
    requires in_range { bank < table.now.shared.key.banks }
    ensures table { (seat.new.table_id ≡ seat.old.table_id) × (result.table_id ≡ seat.old.table_id) }
    ensures founder { seat.new.me ≡ (with_bank bank seat.old.me.0, seat.old.me.1) }
    ensures new { result.me ≡ (new_bank bank, []) }
{
    table.shared.split_seat::<EnrolsBank<N>>(seat)
}

// One seat takes in the logs of another, which is spent.
pub(crate) struct JoinLogs;

impl Join<View> for JoinLogs {
    ghost use Rattle.access_record.specs.Rule.{empty_view};
    ghost use Rattle.access_record.specs.Steps.{union};

    ghost both = { union };

    ghost spent = { empty_view };
}

pub(crate) fn join_seats(table: &RecordTable, seat: &mut RecordSeat, other: RecordSeat)
    requires table { IsSeatOf seat.old.table_id table.now.shared.table_id }
    requires other_table { IsSeatOf other.table_id table.now.shared.table_id }
    requires no_founder { other.me.0.founder ≡ false }
    requires no_slot { other.me.1 ≡ [] }
    ensures table { seat.new.table_id ≡ seat.old.table_id }
    ensures logs { seat.new.me ≡ (union seat.old.me.0 other.me.0, seat.old.me.1) }
{
    table.shared.join_seat::<JoinLogs>(seat, other);
}

// A new seat gets the banks' logs.
pub(crate) struct SplitBanks;

impl Split<View> for SplitBanks {
    ghost use Rattle.access_record.specs.Steps.{without_banks, banks_alone};

    ghost left = { without_banks };

    ghost right = { banks_alone };
}

pub(crate) fn split_banks(table: &RecordTable, seat: &mut RecordSeat) -> RecordSeat
    requires table { IsSeatOf seat.old.table_id table.now.shared.table_id }
    ensures table { (seat.new.table_id ≡ seat.old.table_id) × (result.table_id ≡ seat.old.table_id) }
    ensures harts { seat.new.me ≡ (without_banks seat.old.me.0, seat.old.me.1) }
    ensures banks { result.me ≡ (banks_alone seat.old.me.0, []) }
{
    table.shared.split_seat::<SplitBanks>(seat)
}

// A new seat gets the banks' logs, and the first hart and the first bank know what the other has seen.
pub(crate) struct SplitBanksShared;

impl Split<View> for SplitBanksShared {
    ghost use Rattle.access_record.specs.Steps.{without_banks_shared, banks_alone_shared};

    ghost left = { without_banks_shared };

    ghost right = { banks_alone_shared };
}

pub(crate) fn split_banks_shared(table: &RecordTable, seat: &mut RecordSeat) -> RecordSeat
    requires table { IsSeatOf seat.old.table_id table.now.shared.table_id }
    ensures table { (seat.new.table_id ≡ seat.old.table_id) × (result.table_id ≡ seat.old.table_id) }
    ensures harts { seat.new.me ≡ (without_banks_shared seat.old.me.0, seat.old.me.1) }
    ensures banks { result.me ≡ (banks_alone_shared seat.old.me.0, []) }
{
    table.shared.split_seat::<SplitBanksShared>(seat)
}

// A new seat gets the first hart's log.
pub(crate) struct SplitFirstHart;

impl Split<View> for SplitFirstHart {
    ghost use Rattle.access_record.specs.Steps.{without_first_hart, first_hart_alone};

    ghost left = { without_first_hart };

    ghost right = { first_hart_alone };
}

pub(crate) fn split_first_hart(table: &RecordTable, seat: &mut RecordSeat) -> RecordSeat
    requires table { IsSeatOf seat.old.table_id table.now.shared.table_id }
    ensures table { (seat.new.table_id ≡ seat.old.table_id) × (result.table_id ≡ seat.old.table_id) }
    ensures rest { seat.new.me ≡ (without_first_hart seat.old.me.0, seat.old.me.1) }
    ensures one { result.me ≡ (first_hart_alone seat.old.me.0, []) }
{
    table.shared.split_seat::<SplitFirstHart>(seat)
}

// A new seat gets the first bank's log.
pub(crate) struct SplitFirstBank;

impl Split<View> for SplitFirstBank {
    ghost use Rattle.access_record.specs.Steps.{without_first_bank, first_bank_alone};

    ghost left = { without_first_bank };

    ghost right = { first_bank_alone };
}

pub(crate) fn split_first_bank(table: &RecordTable, seat: &mut RecordSeat) -> RecordSeat
    requires table { IsSeatOf seat.old.table_id table.now.shared.table_id }
    ensures table { (seat.new.table_id ≡ seat.old.table_id) × (result.table_id ≡ seat.old.table_id) }
    ensures rest { seat.new.me ≡ (without_first_bank seat.old.me.0, seat.old.me.1) }
    ensures one { result.me ≡ (first_bank_alone seat.old.me.0, []) }
{
    table.shared.split_seat::<SplitFirstBank>(seat)
}

// The first hart's log gains the entry, and so does the first bank's.
pub(crate) struct Notes<N> {
    of: PhantomData<N>,
}

impl<N: EntryName> Play<u8, View> for Notes<N> {
    ghost use Rattle.access_record.specs.Steps.{Enters};

    ghost then = { Enters N.entry };
}

// A seat with the logs of a hart and of a bank notes an access.
pub(crate) fn note_both<N: EntryName>(
    table: &RecordTable,
    seat: &mut RecordSeat,
    entry: &Entry,
) -> u64
    requires name { N.entry ≡ entry.now }
    requires table { IsSeatOf seat.old.table_id table.now.shared.table_id }
    requires countable { IsCountable table.now.shared.key }
    requires both { (p : HartView) × (d : BankView) × (seat.old.me ≡ (view_of (p ∷ []) (d ∷ []), []))
        × (length p.log < table.now.shared.key.room) }
    requires access { is_access entry.now.what ≡ true }
    ensures table { seat.new.table_id ≡ seat.old.table_id }
    ensures entry { seat.new.me
        ≡ (with_entry entry.now result seat.old.me.0.harts seat.old.me.0.banks, seat.old.me.1) }
    ensures agree { AgreesAt result seat.old.me.0.harts seat.old.me.0.banks }
{
    table.shared.fetch_add::<Notes<N>>(seat, 0, 1)
}

// A seat with the log of a hart notes an end or a handover.
pub(crate) fn note_own<N: EntryName>(
    table: &RecordTable,
    seat: &mut RecordSeat,
    entry: &Entry,
) -> u64
    requires name { N.entry ≡ entry.now }
    requires table { IsSeatOf seat.old.table_id table.now.shared.table_id }
    requires countable { IsCountable table.now.shared.key }
    requires alone { (p : HartView) × (seat.old.me ≡ (view_of (p ∷ []) [], []))
        × (length p.log < table.now.shared.key.room) }
    requires own { is_access entry.now.what ≡ false }
    ensures table { seat.new.table_id ≡ seat.old.table_id }
    ensures entry { seat.new.me
        ≡ (with_entry entry.now result seat.old.me.0.harts seat.old.me.0.banks, seat.old.me.1) }
    ensures agree { AgreesAt result seat.old.me.0.harts seat.old.me.0.banks }
{
    table.shared.fetch_add::<Notes<N>>(seat, 0, 1)
}

// The first hart looks at the first bank's log.
pub(crate) struct LooksAtBank;

impl Play<u8, View> for LooksAtBank {
    ghost use Rattle.access_record.specs.Steps.{Looks};

    ghost then = { Looks };
}

pub(crate) fn look(table: &RecordTable, seat: &mut RecordSeat) -> u64
    requires table { IsSeatOf seat.old.table_id table.now.shared.table_id }
    requires both { (p : HartView) × (d : BankView) × (seat.old.me ≡ (view_of (p ∷ []) (d ∷ []), [])) }
    ensures table { seat.new.table_id ≡ seat.old.table_id }
    ensures look { seat.new.me ≡ (with_look seat.old.me.0.harts seat.old.me.0.banks, seat.old.me.1) }
    ensures agree { AgreesAt result seat.old.me.0.harts seat.old.me.0.banks }
{
    table.shared.load::<LooksAtBank>(seat, 0)
}

// A seat with all logs learns the rule of them.
pub(crate) struct LearnsRule<N> {
    of: PhantomData<N>,
}

impl<N: LimitsName> Play<u8, View> for LearnsRule<N> {
    ghost use Rattle.access_record.specs.Steps.{Knows};

    ghost then = { Knows N.limits };
}

pub(crate) fn learn_rule<N: LimitsName>(table: &RecordTable, seat: &mut RecordSeat) -> u64
    requires name { N.limits ≡ table.now.shared.key }
    requires table { IsSeatOf seat.old.table_id table.now.shared.table_id }
    requires all { HasAllLogs seat.old.me.0 }
    ensures table { seat.new.table_id ≡ seat.old.table_id }
    ensures same { seat.new.me ≡ seat.old.me }
    ensures known { IsWhole table.now.shared.key result seat.old.me.0 }
{
    table.shared.load::<LearnsRule<N>>(seat, 0)
}
