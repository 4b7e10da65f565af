// Runs on threads: what doesn't rest on the order of the harts is what `solo` tells.

use super::{ENDED, IMAGE, READ_FAULT, USAGE, WRITE_FAULT, text_of, words_of};
use crate::status::{Status, status_code};
use crate::top::{flex_run, flex_top};
use flex_base::{MemoryOuter, OpenGate, Text};
use std::alloc::{AllocError, Global};
use std::process::Abort;
use std::sync::Wait;
use std::test::Fail;
use std::thread::Threads;

// `lui x5, 0x100`, `lui x6, 5`, `addi x6, x6, 0x555` and `sw x6, 0(x5)`, which ends the run, behind two
// bytes for the console: `lui x5, 0x10000`, `addi x6, x0, 'H'`, `sb x6, 0(x5)`, and the same of `i`.
const SAYING: [u8; 36] = [
    0xb7, 0x02, 0x00, 0x10, 0x13, 0x03, 0x80, 0x04, 0x23, 0x80, 0x62, 0x00, 0x13, 0x03, 0x90, 0x06,
    0x23, 0x80, 0x62, 0x00, 0x37, 0x03, 0x10, 0x00, 0xb7, 0x53, 0x00, 0x00, 0x93, 0x83, 0x53, 0x55,
    0x23, 0x20, 0x73, 0x00,
];

// The outside where `img` is this image, `in` and `plan` are these files, and the calls of these numbers fail.
fn outer_of(alloc: Global, image: &[u8], failing: &[u64]) -> Result<MemoryOuter, AllocError> {
    let mut files = Vec::new(alloc);
    files.push((Text::of(alloc, b"img")?, Vec::from_slice(alloc, image)?))?;
    files.push((
        Text::of(alloc, b"few")?,
        Vec::from_slice(alloc, b"banks = 1\npipes = 1")?,
    ))?;
    files.push((
        Text::of(alloc, b"host")?,
        Vec::from_slice(alloc, b"engine.alu = 'host'")?,
    ))?;
    let failing = Vec::from_slice(alloc, failing)?;
    Ok(MemoryOuter::new(alloc, files, failing))
}

// What the words of the line come to by `run`.
fn run_line<R: Threads + Wait + Sync>(
    rt: &R,
    alloc: Global,
    image: &[u8],
    line: &str,
    failing: &[u64],
) -> Result<(Status, MemoryOuter), AllocError> {
    let words = words_of(alloc, line)?;
    let mut outer = outer_of(alloc, image, failing)?;
    let status = flex_run(rt, alloc, &words, &mut outer, &OpenGate);
    Ok((status, outer))
}

// That `run` with these words after its own leaves what `solo` with them leaves.
fn assert_alike<R: Threads + Wait + Sync + Abort>(
    rt: &R,
    alloc: Global,
    image: &[u8],
    line: &str,
) -> Result<(), AllocError> {
    let mut words = words_of(alloc, line)?;
    let mut threads = outer_of(alloc, image, &[])?;
    let status = flex_run(rt, alloc, &words, &mut threads, &OpenGate);
    assert!(rt; status_code(&status) == ENDED, "{line}");
    words[0] = String::from_str(alloc, "solo")?;
    let mut one = outer_of(alloc, image, &[])?;
    let status = flex_top(alloc, &words, &mut one);
    assert!(rt; status_code(&status) == ENDED, "{line}");
    assert!(rt; text_of(&threads) == text_of(&one), "{line}");
    assert!(rt; threads.said() == one.said(), "{line}");
    Ok(())
}

// One hart has one order.
#[test]
fn runs_one_hart_as_solo_does(rt: HostRuntime) -> Result<(), Fail> {
    for line in [
        "run img out --ram=1 --budget=3",
        "run img out --ram=1 --budget=300",
        "run img out --ram=1 --budget=300 --plan=few",
        "run img out --ram=1 --budget=300 --plan=host",
    ] {
        assert_alike(&rt, rt.alloc(), &IMAGE, line)?;
        assert_alike(&rt, rt.alloc(), &SAYING, line)?;
    }
    Ok(())
}

#[test]
fn runs_two_harts(rt: HostRuntime) -> Result<(), Fail> {
    let line = "run img out --harts=2 --ram=1 --budget=40";
    let (status, outer) = run_line(&rt, rt.alloc(), &IMAGE, line, &[])?;
    assert_eq!(rt; status_code(&status), ENDED);
    let text = text_of(&outer);
    assert!(rt; text.starts_with("trace 1 harts 2 ram 1 budget 40\n"));
    assert!(rt; text.contains("\nstop budget\nhart 0 ends 40 mode m pc 0000000080000004\n"));
    assert!(rt; text.contains("\nhart 1 ends 40 mode m pc 0000000080000004\n"));
    assert!(rt; text.ends_with("\ndone\n"));
    Ok(())
}

#[test]
fn says_the_bytes_of_a_run(rt: HostRuntime) -> Result<(), Fail> {
    let line = "run img out --ram=1";
    let (status, outer) = run_line(&rt, rt.alloc(), &SAYING, line, &[])?;
    assert_eq!(rt; status_code(&status), ENDED);
    assert!(rt; outer.said() == b"Hi".as_slice());
    let text = text_of(&outer);
    assert!(rt; text.contains("\nstop off 0\nhart 0 ends 9 mode m pc 0000000080000024\n"));
    Ok(())
}

#[test]
fn answers_run_by_the_words(rt: HostRuntime) -> Result<(), Fail> {
    for (line, failing, status) in [
        ("run img out --ram=1 --budget=3", 9, ENDED),
        ("solo img out --ram=1 --budget=3", 9, USAGE),
        ("run img out --ram=1 --budget=3 --order=0", 9, USAGE),
        ("run img", 9, USAGE),
        ("run none out", 9, READ_FAULT),
        ("run img out", 0, READ_FAULT),
        ("run img out --ram=1 --budget=3", 1, WRITE_FAULT),
        ("run img out --ram=1 --budget=3", 2, WRITE_FAULT),
    ] {
        let (answer, outer) = run_line(&rt, rt.alloc(), &IMAGE, line, &[failing])?;
        assert!(rt; status_code(&answer) == status, "{line}");
        assert!(rt;
            outer.written("out").is_some() == (status == ENDED || failing == 2),
            "{line}"
        );
    }
    Ok(())
}

// The calls of this run are those that take the plan, the image and the input, one that says two bytes,
// one that starts the trace and one that adds all of it.
const CALLING: &str = "run img out --ram=1 --plan=few --input=host";

#[test]
fn answers_run_by_the_call_that_fails(rt: HostRuntime) -> Result<(), Fail> {
    for (call, status, said, written) in [
        (0, READ_FAULT, "", false),
        (1, READ_FAULT, "", false),
        (2, READ_FAULT, "", false),
        (3, WRITE_FAULT, "", false),
        (4, WRITE_FAULT, "Hi", false),
        (5, WRITE_FAULT, "Hi", true),
        (6, ENDED, "Hi", true),
    ] {
        assert_call_of_run(&rt, rt.alloc(), call, status, said, written)?;
    }
    Ok(())
}

// That the run where this call fails has this answer, says these bytes, and has started the trace or
// not. Only one that has ended has text in it.
fn assert_call_of_run<R: Threads + Wait + Sync + Abort>(
    rt: &R,
    alloc: Global,
    call: u64,
    status: u8,
    said: &str,
    written: bool,
) -> Result<(), AllocError> {
    let (answer, outer) = run_line(rt, alloc, &SAYING, CALLING, &[call])?;
    assert!(rt; status_code(&answer) == status, "at {call}");
    assert!(rt; outer.said() == said.as_bytes(), "at {call}");
    assert!(rt; outer.written("out").is_some() == written, "at {call}");
    assert!(rt;
        text_of(&outer).is_empty() == (status != ENDED),
        "at {call}"
    );
    Ok(())
}
