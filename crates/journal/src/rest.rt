ghost use Rattle.std.specs.Prelude.{◌≡◌};
ghost use Rattle.std.specs.Iterator.{YieldsFirst};
ghost use Rattle.journal.specs.Rests.{begins_with, events_left, is_in_range};

use crate::kept::{Kept, Last};
use crate::kept_event::KeptEvent;

// What is left of a log that is read.
#[derive(Clone, Copy)]
pub(crate) struct Rest<'a> {
    pub(crate) kept: &'a [Kept],
    pub(crate) beside: &'a [u64],
}

impl<'a> Rest<'a> {
    // Takes the first of its events.
    #[inline(always)]
    pub(crate) fn take_first(&mut self) -> Option<KeptEvent<'a>>
        ensures { YieldsFirst (λ rest. rest) (events_left self.old) result (events_left self.new) }
    {
        let (kept, rest) = self.kept.split_first()?;
        self.kept = rest;
        let mut last = 0;
        if let Last::Beside = kept.last {
            if let Some((first, others)) = self.beside.split_first() {
                last = *first;
                self.beside = others;
            }
        }
        Some(KeptEvent { kept, beside: last })
    }

    // Whether its first event has this number.
    #[inline(always)]
    pub(crate) fn begins_with(self, number: u64) -> bool
        ensures is { result ≡ begins_with number (events_left self.entry) }
        ensures range { is_in_range (events_left self.entry) }
    {
        !self.kept.is_empty() && self.kept[0].number == number
    }
}
