ghost use Rattle.std.specs.Prelude.{◌≡◌};
ghost use Rattle.journal.specs.Packing.{event_of, last_number};

use crate::parts::{Kind, Parts};
use flex_base::{Engine, HartId, What};

// The last number of an event. In the runs of a machine it is the number of a register, the cause of
// a trap, which for an interrupt has bit 63 set, or 0.
#[derive(Clone, Copy)]
pub(crate) enum Last {
    Small(u8),
    Interrupt(u8),
    // It stands in the log's list of numbers beside the events.
    Beside,
}

const INTERRUPT: u64 = 0x8000_0000_0000_0000;

impl Last {
    #[inline]
    pub(crate) fn of(number: u64) -> Last
        ensures { last_number result number ≡ number }
    {
        if number < 256 {
            Last::Small(number as u8)
        } else if number >= INTERRUPT && number - INTERRUPT < 256 {
            Last::Interrupt((number - INTERRUPT) as u8)
        } else {
            Last::Beside
        }
    }
}

// An event, in 40 bytes.
#[derive(Clone, Copy)]
pub(crate) struct Kept {
    pub(crate) number: u64,
    pub(crate) first: u64,
    pub(crate) second: u64,
    pub(crate) third: u64,
    pub(crate) hart: HartId,
    pub(crate) engine: Engine,
    pub(crate) kind: Kind,
    pub(crate) stop: bool,
    pub(crate) last: Last,
}

impl Kept {
    // What happened, where the next of the numbers beside is given.
    #[inline(always)]
    pub(crate) fn what(&self, beside: u64) -> What
        ensures { result ≡ (event_of self.now beside).what }
    {
        let last = match self.last {
            Last::Small(number) => number as u64,
            Last::Interrupt(number) => INTERRUPT + number as u64,
            Last::Beside => beside,
        };
        let parts = Parts {
            kind: self.kind,
            stop: self.stop,
            first: self.first,
            second: self.second,
            third: self.third,
            last,
        };
        parts.what()
    }
}
