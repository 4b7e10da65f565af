ghost use Rattle.std.specs.Prelude.{◌≡◌, List};
ghost use Rattle.std.specs.Iterator.{YieldsFirst, item_count};
ghost use Rattle.flex_base.specs.declared.event.Event.{Event};
ghost use Rattle.journal.specs.Packing.{event_of};
ghost use Rattle.journal.specs.Rests.{events_left};

use crate::kept::Kept;
use crate::rest::Rest;
use flex_base::{Engine, Event, HartId, What};
use std::marker::Model;

/// An event of a log as it is kept there. Contracts see the event. Where its parts are read one by
/// one, no event need be made.
#[derive(Drop)]
pub struct KeptEvent<'a> {
    pub(crate) kept: &'a Kept,
    // Its last number, if that stands beside the events.
    pub(crate) beside: u64,
}

impl<'a> Model for KeptEvent<'a> {
    ghost Value = { Event };

    ghost view = { λ p. event_of p.kept.now p.beside };
}

impl<'a> KeptEvent<'a> {
    /// Its number.
    #[inline(always)]
    pub fn number(&self) -> u64
        ensures { result ≡ self.now.number }
    {
        self.kept.number
    }

    /// Its hart.
    #[inline(always)]
    pub fn hart(&self) -> HartId
        ensures { result ≡ self.now.hart }
    {
        self.kept.hart
    }

    /// The engine that holds the hart.
    #[inline(always)]
    pub fn engine(&self) -> Engine
        ensures { result ≡ self.now.engine }
    {
        self.kept.engine
    }

    /// What happened.
    #[inline(always)]
    pub fn what(&self) -> What
        ensures { result ≡ self.now.what }
    {
        self.kept.what(self.beside)
    }

    /// The event.
    #[inline(always)]
    pub fn event(&self) -> Event
        ensures { result ≡ self.now }
    {
        Event {
            number: self.number(),
            hart: self.hart(),
            engine: self.engine(),
            what: self.what(),
        }
    }
}

/// The events of a log as they are kept, in order. Contracts see the list of those that are left.
#[derive(Drop)]
pub struct KeptEvents<'a> {
    pub(crate) rest: Rest<'a>,
}

impl<'a> Model for KeptEvents<'a> {
    ghost Value = { List Event };

    ghost view = { λ e. events_left e.rest };
}

impl<'a> Iterator for KeptEvents<'a> {
    type Item = KeptEvent<'a>;

    ghost next_gives = { YieldsFirst (λ rest. rest) };

    ghost remaining = { item_count (λ rest. rest) };

    #[inline(always)]
    fn next(&mut self) -> Option<KeptEvent<'a>> {
        self.rest.take_first()
    }
}
