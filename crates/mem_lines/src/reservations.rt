ghost use Rattle.std.specs.Prelude.{◌≡◌, ℕ, ◌<◌, slice_index_or, if◌then◌else◌, ◌==◌, None, Some};
ghost use Rattle.flex_base.specs.FlatMemory.{broken, is_reserved};

use flex_base::{is_reserved, reservation_set};
use std::marker::Model;

// What each hart has reserved.
//
// A write looks at the harts below `harts` alone, and at none while no reservation stands.
#[derive(Drop)]
pub(crate) struct Reservations {
    places: [Option<u64>; 32],
    // How many reservations stand.
    standing: u64,
    // Each hart that has reserved something is below this one.
    harts: u8,
}

impl Model for Reservations {
    ghost use Rattle.std.specs.Prelude.{ℕ, List, Option};
    ghost use Rattle.mem_lines.specs.Bank.{IsCounted};

    ghost Value = { List (Option ℕ) };

    ghost view = { λ r. r.places };

    ghost invariant = { λ r. IsCounted r.places r.standing r.harts };
}

impl Reservations {
    pub(crate) fn none() -> Reservations
        ensures { (hart : ℕ) → slice_index_or result hart None ≡ None }
    {
        Reservations {
            places: [None; 32],
            standing: 0,
            harts: 0,
        }
    }

    // Whether a hart has reserved these 8 bytes.
    pub(crate) fn stands(&self, hart: u8, reservation_set: u64) -> bool
        requires { hart < 32 }
        ensures { result ≡ is_reserved (slice_index_or self.now hart None) reservation_set }
    {
        is_reserved(self.places[hart as usize], reservation_set)
    }

    // A load-reserved by this hart: its earlier reservation is gone.
    pub(crate) fn reserve(&mut self, hart: u8, reservation_set: u64)
        requires { hart < 32 }
        ensures { (h : ℕ) → slice_index_or self.new h None
            ≡ (if h == hart then Some reservation_set else slice_index_or self.old h None) }
    {
        if self.places[hart as usize].is_none() {
            self.standing += 1;
        }
        if self.harts <= hart {
            self.harts = hart + 1;
        }
        self.places[hart as usize] = Some(reservation_set);
    }

    pub(crate) fn release(&mut self, hart: u8)
        requires { hart < 32 }
        ensures { (h : ℕ) → slice_index_or self.new h None
            ≡ (if h == hart then None else slice_index_or self.old h None) }
    {
        if self.places[hart as usize].is_some() {
            self.standing -= 1;
            self.places[hart as usize] = None;
        }
    }

    // Ends the reservations that a write by this hart ends, which are those of the other harts.
    pub(crate) fn end_others(&mut self, by: u8, address: u64)
        ensures { (hart : ℕ) → slice_index_or self.new hart None
            ≡ broken hart by address (slice_index_or self.old hart None) }
    {
        if self.standing == 0 {
            return;
        }
        for hart in 0..self.harts {
            if hart != by && self.stands(hart, reservation_set(address)) {
                self.release(hart);
            }
        }
    }
}
