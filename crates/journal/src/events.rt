ghost use Rattle.std.specs.Prelude.{List};
ghost use Rattle.std.specs.Iterator.{YieldsFirst, item_count};
ghost use Rattle.flex_base.specs.declared.event.Event.{Event};

use crate::kept_event::KeptEvents;
use flex_base::Event;
use std::marker::Model;

/// The events of a log by value, in order. Contracts see the list of those that are left.
#[derive(Drop)]
pub struct Events<'a> {
    pub(crate) kept_events: KeptEvents<'a>,
}

impl<'a> Model for Events<'a> {
    ghost Value = { List Event };

    ghost view = { λ e. e.kept_events };
}

impl<'a> Iterator for Events<'a> {
    type Item = Event;

    ghost next_gives = { YieldsFirst (λ rest. rest) };

    ghost remaining = { item_count (λ rest. rest) };

    fn next(&mut self) -> Option<Event> {
        match self.kept_events.next() {
            Some(kept) => Some(kept.event()),
            None => None,
        }
    }
}
