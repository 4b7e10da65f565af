ghost use Rattle.std.specs.Prelude.{◌≡◌, IfOk};
ghost use Rattle.flex_base.specs.Journal.{event};
ghost use Rattle.journal.specs.Merged.{AreLogsOf};

use super::{HartLog, by_number};
use crate::kept::Kept;
use flex_base::{Access, Class, EndPart, Engine, Event, HartId, Reply, What};
use std::alloc::{AllocError, Global};
use std::test::Fail;

fn event(number: u64, what: What) -> Event {
    Event {
        number,
        hart: HartId(1),
        engine: Engine::Kernel,
        what,
    }
}

fn end(first: u64) -> What {
    What::End(EndPart {
        class: Class::Trap,
        pc: 0x8000_0000,
        next: u64::MAX,
        first,
        second: 7,
    })
}

// What goes to another thread.
fn is_sent<T: Send>(_value: &T) {}

#[test]
fn an_event_is_kept_in_40_bytes(rt: HostRuntime) {
    assert_eq!(rt; std::mem::size_of::<Kept>(), 40);
}

// A log is filled, read, picked from and emptied. Two of its events have a last number that isn't
// small: lines in the reply to a write, and a cause of 2^40.
#[test]
fn a_log_gives_what_was_pushed(rt: HostRuntime) -> Result<(), Fail> {
    let write = Access::Write {
        address: 0x8000_0100,
        width: 8,
        value: u64::MAX,
    };
    let reply = Reply {
        value: 1,
        lines: 0x888,
        stop: true,
    };
    let pushed = [
        event(3, end(13)),
        event(4, What::Acc(write, reply)),
        event(7, What::Handover(Engine::Pipe)),
        event(9, end(0x8000_0000_0000_0007)),
        event(u64::MAX, end(1 << 40)),
    ];
    let mut log = HartLog::new(rt.alloc(), 5)?;
    is_sent(&log);
    for one in pushed {
        assert!(rt; log.room() > 0);
        log.push(one);
    }
    assert_eq!(rt; log.room(), 0);
    assert_eq!(rt; log.len(), 5);
    let mut read = log.events();
    for one in pushed {
        assert_eq!(rt; read.next(), Some(one));
    }
    assert_eq!(rt; read.next(), None);
    log.clear();
    assert_eq!(rt; log.room(), 5);
    assert_eq!(rt; log.events().next(), None);
    Ok(())
}

// An event of a hart. Its last number isn't small.
fn of_hart(hart: u8, number: u64) -> Event
    ensures { (happened : What) × (result ≡ event number hart Engine.Pipe happened) }
{
    Event {
        number,
        hart: HartId(hart),
        engine: Engine::Pipe,
        what: end(1 << 40 | number),
    }
}

// A log of these events.
fn log_of(alloc: Global, events: &[Event]) -> Result<HartLog, AllocError>
    ensures { IfOk result (λ log. log.events ≡ events.now) }
{
    let mut log = HartLog::new(alloc, events.len() as u64)?;
    for event in events {
        log.push(*event);
    }
    Ok(log)
}

// Read by number these logs are this journal.
fn is_read(logs: &[HartLog], journal: &[Event]) -> bool
    requires { AreLogsOf journal.now logs.now }
{
    let mut read = by_number(logs);
    for event in journal {
        match read.next() {
            Some(kept) => {
                if kept.event() != *event {
                    return false;
                }
            }
            None => return false,
        }
    }
    read.next().is_none()
}

// Of three logs the second is empty.
#[test]
fn logs_are_read_by_number(rt: HostRuntime) -> Result<(), Fail> {
    let journal = [
        of_hart(2, 0),
        of_hart(2, 1),
        of_hart(0, 2),
        of_hart(2, 3),
        of_hart(0, 4),
    ];
    let [first, second, third, fourth, fifth] = journal;
    let logs = [
        log_of(rt.alloc(), &[third, fifth])?,
        log_of(rt.alloc(), &[])?,
        log_of(rt.alloc(), &[first, second, fourth])?,
    ];
    assert!(rt; is_read(&logs, &journal));
    Ok(())
}

#[test]
fn one_log_is_read_by_number(rt: HostRuntime) -> Result<(), Fail> {
    let journal = [of_hart(0, 0), of_hart(0, 1)];
    let logs = [log_of(rt.alloc(), &journal)?];
    assert!(rt; is_read(&logs, &journal));
    Ok(())
}
