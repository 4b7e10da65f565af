use super::*;
use crate::trace_file::write_trace;
use flex_base::{HartId, MemoryOuter, Settings};
use journal::{HartLog, by_number};
use std::alloc::{AllocError, Global};
use std::test::Fail;
use tracer::TailLine;

// So many lines of 27 bytes each.
const LINES: u64 = 3_000;

fn lines(alloc: Global) -> Result<Vec<TailLine>, AllocError> {
    let mut lines = Vec::new(alloc);
    for value in 0..LINES {
        lines.push(TailLine::Reg {
            hart: HartId(0),
            number: 5,
            value,
        })?;
    }
    Ok(lines)
}

fn text(alloc: Global) -> Result<Vec<u8>, AllocError> {
    let mut text = Vec::from_slice(alloc, b"trace 1 harts 1 ram 1 budget 1\n".as_slice())?;
    for value in 0..LINES {
        let line = format!(in alloc; "hart 0 x5 {value:016x}\n")?;
        text.extend_from_slice(line.as_bytes())?;
    }
    Ok(text)
}

// The lines written as those of a trace, to an outside where a call may fail.
fn write_lines(alloc: Global, failing: &[u64]) -> Result<(MemoryOuter, bool), AllocError> {
    let failing = Vec::from_slice(alloc, failing)?;
    let mut outer = MemoryOuter::new(alloc, Vec::new(alloc), failing);
    let mut pieces = Pieces::new(alloc)?;
    let logs = [HartLog::new(alloc, 0)?];
    let tail = lines(alloc)?;
    let settings = Settings {
        harts: 1,
        ram: 1 << 20,
        budget: 1,
    };
    let events = by_number(logs.as_slice());
    let done = write_trace(&mut outer, "out", &mut pieces, &settings, events, &tail).is_ok();
    Ok((outer, done))
}

#[test]
fn writes_all_lines(rt: HostRuntime) -> Result<(), Fail> {
    let (outer, done) = write_lines(rt.alloc(), [9].as_slice())?;
    assert!(rt; done);
    let text = text(rt.alloc())?;
    assert_eq!(rt; outer.written("out"), Some(text.as_slice()));
    Ok(())
}

#[test]
fn keeps_the_first_piece_where_the_second_fails(rt: HostRuntime) -> Result<(), Fail> {
    let (outer, done) = write_lines(rt.alloc(), [2].as_slice())?;
    assert!(rt; !done);
    let text = text(rt.alloc())?;
    assert_eq!(rt; outer.written("out"), text.get(..65_536));
    Ok(())
}
