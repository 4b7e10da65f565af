// Runs that end only where harts run beside one another, each bank under a lock of its own: a gate
// holds one hart until another has come to some point.

use super::{ENDED, words_of};
use crate::status::status_code;
use crate::top::flex_run;
use flex_base::{Engine, Gate, HartId, MemoryOuter, Point, Text};
use std::alloc::{AllocError, Global};
use std::sync::Wait;
use std::sync::atomic::{AtomicBool, AtomicU64, Ordering};
use std::test::Fail;
use std::thread::{self, Threads};

// So many turns a gate makes at most where it holds a hart.
const TURNS: u64 = 1_000_000;

// An image by its words; all between them is zero.
fn image_of(alloc: Global, words: &[(usize, u32)], length: usize) -> Result<Vec<u8>, AllocError> {
    let mut image = Vec::new(alloc);
    for place in 0..length {
        let mut here = 0_u32;
        for (at, word) in words {
            if *at / 4 == place {
                here = *word;
            }
        }
        image.extend_from_slice(&here.to_le_bytes())?;
    }
    Ok(image)
}

// What `run` answers over this image, with this gate.
fn run_gated<R: Threads + Wait + Sync, G: Gate>(
    rt: &R,
    alloc: Global,
    image: Vec<u8>,
    line: &str,
    gate: &G,
) -> Result<u8, AllocError> {
    let words = words_of(alloc, line)?;
    let mut files = Vec::new(alloc);
    files.push((Text::of(alloc, b"img")?, image))?;
    let mut outer = MemoryOuter::new(alloc, files, Vec::new(alloc));
    let status = flex_run(rt, alloc, &words, &mut outer, gate);
    Ok(status_code(&status))
}

// A program by whose first word all harts but hart 0 go on at 80000040, where they jump to themselves.
// Hart 0 jumps to 80000080, where it stores at 80000100 again and again: `bne x10, x0, 64`, `jal x0,
// 124`; `jal x0, 0`; `auipc x5, 0`, `sw x0, 128(x5)`, `jal x0, -4`. Its code is in bank 2, what it
// stores in bank 0, and the other hart's code in bank 1.
const CROSSING: [(usize, u32); 6] = [
    (0x00, 0x0405_1063),
    (0x04, 0x07c0_006f),
    (0x40, 0x0000_006f),
    (0x80, 0x0000_0297),
    (0x84, 0x0802_a023),
    (0x88, 0xffdf_f06f),
];

// Two harts are each held with the lock of one bank until the other holds another's, and hart 0 then
// with a lock until hart 1 has made an event.
#[derive(Drop)]
struct Crossing {
    // Hart 0 has come to bank 2, and after it to bank 0.
    at_two: AtomicBool,
    at_zero: AtomicBool,
    // Hart 1 has come to bank 1, and its event there was numbered.
    at_one: AtomicBool,
    noted: AtomicBool,
    failed: AtomicBool,
}

impl Crossing {
    // Holds a hart until the flag is set.
    fn hold(&self, flag: &AtomicBool) {
        for _ in 0..TURNS {
            if flag.load(Ordering::SeqCst) {
                return;
            }
            thread::yield_now();
        }
        self.failed.store(true, Ordering::SeqCst);
    }
}

impl Gate for Crossing {
    fn at(&self, hart: HartId, _engine: Engine, point: Point) {
        match (hart.0, point) {
            (0, Point::Held(2)) => {
                if !self.at_two.swap(true, Ordering::SeqCst) {
                    self.hold(&self.at_one);
                }
            }
            (0, Point::Held(0)) => {
                if self.at_two.load(Ordering::SeqCst)
                    && !self.at_zero.swap(true, Ordering::SeqCst)
                {
                    self.hold(&self.noted);
                }
            }
            (1, Point::Held(1)) => {
                if !self.at_one.swap(true, Ordering::SeqCst) {
                    self.hold(&self.at_zero);
                }
            }
            (1, Point::Noted(_)) => {
                if self.at_one.load(Ordering::SeqCst) {
                    self.noted.store(true, Ordering::SeqCst);
                }
            }
            _ => {}
        }
    }
}

#[test]
fn harts_hold_two_banks_at_once(rt: HostRuntime) -> Result<(), Fail> {
    let image = image_of(rt.alloc(), &CROSSING, 35)?;
    let gate = Crossing {
        at_two: AtomicBool::new(false),
        at_zero: AtomicBool::new(false),
        at_one: AtomicBool::new(false),
        noted: AtomicBool::new(false),
        failed: AtomicBool::new(false),
    };
    let line = "run img out --harts=2 --ram=1";
    let status = run_gated(&rt, rt.alloc(), image, line, &gate)?;
    assert_eq!(rt; status, ENDED);
    assert!(rt; !gate.failed.load(Ordering::SeqCst));
    assert!(rt; gate.noted.load(Ordering::SeqCst));
    Ok(())
}

// Hart 0 sends a byte to the console again and again: `bne x10, x0, 64`, `lui x5, 0x10000`, `sb x0,
// 0(x5)`, `jal x0, -4`. The others jump to themselves at 80000040.
const SENDING: [(usize, u32); 5] = [
    (0x00, 0x0405_1063),
    (0x04, 0x1000_02b7),
    (0x08, 0x0002_8023),
    (0x0c, 0xffdf_f06f),
    (0x40, 0x0000_006f),
];

// So many turns one hold lasts at most.
const HOLD: u64 = 10_000;

// What another hart does while hart 0 is held.
#[derive(Drop)]
struct Other {
    // Whether it came to a lock since its last event.
    held: AtomicBool,
    // The hold in which its last event was, and how many ends it has made in it after its first event.
    hold: AtomicU64,
    ends: AtomicU64,
}

// Hart 0 is held with the lock of the devices, by the host, until another hart has made ends in a pipe.
#[derive(Drop)]
struct Sending {
    // The number of the hold, or 0 where none is.
    hold: AtomicU64,
    holds: AtomicU64,
    turns: AtomicU64,
    others: [Other; 3],
    passed: AtomicBool,
}

impl Sending {
    fn hold(&self) {
        let number = self.holds.fetch_add(1, Ordering::SeqCst).wrapping_add(1);
        self.hold.store(number, Ordering::SeqCst);
        for _ in 0..HOLD {
            if self.passed.load(Ordering::SeqCst) || self.is_over() {
                break;
            }
            self.turns.fetch_add(1, Ordering::SeqCst);
            thread::yield_now();
        }
        self.hold.store(0, Ordering::SeqCst);
    }

    // Whether all turns are used up.
    fn is_over(&self) -> bool {
        self.turns.load(Ordering::SeqCst) >= TURNS
    }

    // An event of another hart in a pipe. One that came to no lock is an end, or a handover: a second
    // one in the same hold is an end.
    fn note(&self, other: &Other) {
        let hold = self.hold.load(Ordering::SeqCst);
        let held = other.held.swap(false, Ordering::SeqCst);
        if hold == 0 {
            return;
        }
        if other.hold.swap(hold, Ordering::SeqCst) != hold {
            other.ends.store(0, Ordering::SeqCst);
            return;
        }
        if !held && other.ends.fetch_add(1, Ordering::SeqCst) >= 1 {
            self.passed.store(true, Ordering::SeqCst);
        }
    }
}

impl Gate for Sending {
    fn at(&self, hart: HartId, engine: Engine, point: Point) {
        if hart.0 == 0 {
            let at_devices = engine == Engine::Host && point == Point::Held(4);
            if at_devices && !self.passed.load(Ordering::SeqCst) && !self.is_over() {
                self.hold();
            }
            return;
        }
        let Some(other) = self.others.get(hart.0 as usize - 1) else {
            return;
        };
        match point {
            Point::Held(_) => other.held.store(true, Ordering::SeqCst),
            Point::Noted(_) if engine == Engine::Pipe => self.note(other),
            Point::Noted(_) => other.held.store(false, Ordering::SeqCst),
        }
    }
}

fn new_other() -> Other {
    Other {
        held: AtomicBool::new(false),
        hold: AtomicU64::new(0),
        ends: AtomicU64::new(0),
    }
}

#[test]
fn a_pipe_goes_on_while_the_host_is_held(rt: HostRuntime) -> Result<(), Fail> {
    let image = image_of(rt.alloc(), &SENDING, 17)?;
    let gate = Sending {
        hold: AtomicU64::new(0),
        holds: AtomicU64::new(0),
        turns: AtomicU64::new(0),
        others: [new_other(), new_other(), new_other()],
        passed: AtomicBool::new(false),
    };
    let line = "run img out --harts=4 --ram=1";
    let status = run_gated(&rt, rt.alloc(), image, line, &gate)?;
    assert_eq!(rt; status, ENDED);
    assert!(rt; gate.passed.load(Ordering::SeqCst));
    Ok(())
}
