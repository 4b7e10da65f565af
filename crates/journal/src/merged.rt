ghost use Rattle.std.specs.Prelude.{◌≡◌, ℕ, ◌<◌, ◌≤◌, false, true, List, [], map, length, get_or, None, IfSome};
ghost use Rattle.std.specs.Iterator.{YieldsFirst, item_count};
ghost use Rattle.flex_base.specs.declared.event.Event.{Event};
ghost use Rattle.journal.specs.Merged.{AreLogsOf};
ghost use Rattle.journal.specs.Rests.{AreRests, IsByNumber, begins_with, events_left, is_in_range, merged};

use crate::hart_log::HartLog;
use crate::kept_event::KeptEvent;
use crate::rest::Rest;
use std::marker::Model;

// As many logs as there may be harts.
const LOGS: usize = 32;

/// The events of several logs in the order of their numbers, as they are kept. Contracts see the
/// list of those that are left.
#[derive(Drop)]
pub struct ByNumber<'a> {
    // What is left of each log. From `count` on there are none.
    rests: [Rest<'a>; LOGS],
    count: usize,
    // The log that was last taken from: runs of one hart are long.
    last: usize,
    // The number of the next event.
    number: u64,
}

impl<'a> Model for ByNumber<'a> {
    ghost Value = { List Event };

    ghost view = { λ b. merged (map events_left b.rests) };

    ghost invariant = { λ b. IsByNumber (map events_left b.rests) b.count b.last b.number };
}

/// The events of the logs of a journal in the order of their numbers, 0, 1, 2 and so on. The log of
/// hart h is the one at h. It takes no memory.
pub fn by_number(logs: &[HartLog]) -> ByNumber<'_>
    requires logs { (journal : List Event) × AreLogsOf journal logs.now }
    ensures { (journal : List Event) → AreLogsOf journal logs.now → result ≡ journal }
{
    ByNumber {
        rests: whole(logs),
        count: logs.len(),
        last: 0,
        number: 0,
    }
}

// The whole of each log, and nothing past the last.
fn whole(logs: &[HartLog]) -> [Rest<'_>; LOGS]
    requires few { length logs.now ≤ 32 }
    ensures { AreRests (length logs.now) logs.now (map events_left result) }
{
    let mut rests = [Rest {
        kept: &[],
        beside: &[],
    }; LOGS];
    for hart in 0..logs.len() {
        rests[hart] = logs[hart].rest();
    }
    rests
}

impl<'a> Iterator for ByNumber<'a> {
    type Item = KeptEvent<'a>;

    ghost next_gives = { YieldsFirst (λ rest. rest) };

    ghost remaining = { item_count (λ rest. rest) };

    #[inline(always)]
    fn next(&mut self) -> Option<KeptEvent<'a>> {
        let Some(at) = place_of(&self.rests, self.count, self.last, self.number) else {
            return None;
        };
        self.last = at;
        // After the event of the greatest number there is none.
        self.number = self.number.wrapping_add(1);
        let rest = &mut self.rests[at];
        rest.take_first()
    }
}

// The place of the log whose next event has this number, sought from the last one on.
#[inline(always)]
fn place_of(rests: &[Rest<'_>; LOGS], count: usize, last: usize, number: u64) -> Option<usize>
    requires few { count ≤ 32 }
    requires within { last < 32 }
    ensures within { IfSome result (λ at. at < 32) }
    ensures found { IfSome result (λ at. begins_with number (get_or (map events_left rests.now) at []) ≡ true) }
    ensures none { result ≡ None → (h : ℕ) → h < count
        → (begins_with number (get_or (map events_left rests.now) h []) ≡ false) × is_in_range (get_or (map events_left rests.now) h []) }
{
    if rests[last].begins_with(number) {
        return Some(last);
    }
    match first_of(rests, last + 1, count, number) {
        Some(at) => Some(at),
        None => first_of(rests, 0, last + 1, number),
    }
}

// The first such place of these.
fn first_of(rests: &[Rest<'_>; LOGS], from: usize, to: usize, number: u64) -> Option<usize>
    requires within { to ≤ 32 }
    ensures within { IfSome result (λ at. at < 32) }
    ensures found { IfSome result (λ at. begins_with number (get_or (map events_left rests.now) at []) ≡ true) }
    ensures none { result ≡ None → (h : ℕ) → from ≤ h → h < to
        → (begins_with number (get_or (map events_left rests.now) h []) ≡ false) × is_in_range (get_or (map events_left rests.now) h []) }
{
    for at in from..to {
        if rests[at].begins_with(number) {
            return Some(at);
        }
    }
    None
}
