use super::*;
use flex_base::{Engine, Event, HartId, MemoryOuter, Stop, What};
use hart_story::Hart;
use journal::{HartLog, by_number};
use sha2::{Digest, Sha256};
use std::alloc::{AllocError, Global};
use std::test::Fail;
use tracer::Tail;

const TEXT: &str = "trace 1 harts 2 ram 1 budget 3
0 1 p to k
stop off 7
hart 0 ends 3 mode m pc 0000000080000004
hart 0 x5 0000000000000007
hart 0 csr 300 0000000a00000000
hart 0 csr b00 0000000000000003
hart 0 csr b02 0000000000000003
hart 1 ends 0 mode m pc 0000000080000000
hart 1 x10 0000000000000001
hart 1 csr 300 0000000a00000000
ram ba7816bf8f01cfea414140de5dae2223b00361a396177a9cb410ff61f20015ad
done
";

// Two harts and one event, over RAM of three bytes, written to an outside where a call may fail.
fn write_small(alloc: Global, failing: &[u64]) -> Result<(MemoryOuter, bool), AllocError> {
    let failing = Vec::from_slice(alloc, failing)?;
    let mut outer = MemoryOuter::new(alloc, Vec::new(alloc), failing);
    let mut pieces = Pieces::new(alloc)?;
    let mut first = Hart::start(HartId(0), 0x8000_0004);
    for _ in 0..3 {
        first.csrs.count(true, true);
    }
    first.regs.ends = 3;
    first.regs.x[5] = 7;
    let mut tail = Tail::new(alloc)?;
    tail.fill(
        Some(Stop::Off(7)),
        &[first, Hart::start(HartId(1), 0x8000_0000)],
        Sha256::digest(b"abc"),
    );
    let settings = Settings {
        harts: 2,
        ram: 1 << 20,
        budget: 3,
    };
    let mut log = HartLog::new(alloc, 1)?;
    log.push(Event {
        number: 0,
        hart: HartId(1),
        engine: Engine::Pipe,
        what: What::Handover(Engine::Kernel),
    });
    let logs = [HartLog::new(alloc, 0)?, log];
    let done = write_trace(
        &mut outer,
        "out",
        &mut pieces,
        &settings,
        by_number(logs.as_slice()),
        tail.lines(),
    )
    .is_ok();
    Ok((outer, done))
}

#[test]
fn writes_a_small_trace(rt: HostRuntime) -> Result<(), Fail> {
    let (outer, done) = write_small(rt.alloc(), [9].as_slice())?;
    assert!(rt; done);
    assert_eq!(rt; outer.written("out"), Some(TEXT.as_bytes()));
    Ok(())
}

#[test]
fn leaves_the_file_where_a_call_fails(rt: HostRuntime) -> Result<(), Fail> {
    let (outer, done) = write_small(rt.alloc(), [0].as_slice())?;
    assert!(rt; !done);
    assert_eq!(rt; outer.written("out"), None);
    let (outer, done) = write_small(rt.alloc(), [1].as_slice())?;
    assert!(rt; !done);
    assert_eq!(rt; outer.written("out"), Some(b"".as_slice()));
    Ok(())
}
