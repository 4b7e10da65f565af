//! What a seat of the record's table knows. No value of these types is made but seats and tables.
use crate::entry::LogEntry;
use crate::limits::Limits;
use atomic_table::{Seat, Table, TableRule};
use flex_base::HartId;
use std::alloc::Global;
use std::collections::LinkedList;

/// A hart's log, with what its pass knows beside it.
pub struct HartView {
    pub hart: HartId,
    pub log: LinkedList<LogEntry>,
    /// The count of events was at least this when the pass last saw it.
    pub seen: u64,
    /// How often it looked at the devices.
    pub looks: u64,
    /// The devices' log when it looked last.
    pub looked: LinkedList<LogEntry>,
}

/// A bank's log, with what its pass knows beside it.
pub struct BankView {
    pub bank: u8,
    pub log: LinkedList<LogEntry>,
    /// The count of events was at least this when the pass last saw it.
    pub seen: u64,
}

/// The logs that a seat has. The founder's view also lists who is enrolled.
pub struct View {
    pub founder: bool,
    pub enrolled_harts: LinkedList<u8>,
    pub enrolled_banks: LinkedList<u8>,
    pub harts: LinkedList<HartView>,
    pub banks: LinkedList<BankView>,
}

/// The rule of the record, which holds between any two atomic steps.
pub struct RecordRule;

impl TableRule<u8, View, Limits> for RecordRule {
    ghost use Rattle.access_record.specs.Rule.{MeetsRule, founder_alone};

    ghost holds = { MeetsRule };

    ghost first = { λ _. founder_alone };
}

// One word and no slot, so the type of a slot's value is never used.
pub(crate) type RecordTable = Table<u8, View, Limits, RecordRule, Global>;

pub(crate) type RecordSeat = Seat<u8, View>;
