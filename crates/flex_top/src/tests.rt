mod device_programs;
mod gates;
mod images;
mod plans;
mod programs;
mod runs;

ghost use Rattle.std.specs.Prelude.{◌≡◌, map, Some, IsSomeAnd, string_bytes};
ghost use Rattle.flex_top.specs.Words.{Reading, reading};
ghost use Rattle.flex_top.specs.Answer.{sources_among, expected};
ghost use Rattle.flex_top.specs.Does.{IsEnded};

use super::*;
use flex_base::{MemoryOuter, Outer, SteadyOuter, Text};
use std::alloc::{AllocError, Global};
use std::process::Abort;

// `addi x5, x0, 7`, and a jump to itself.
const IMAGE: [u8; 8] = [0x93, 0x02, 0x70, 0x00, 0x6f, 0x00, 0x00, 0x00];

// The numbers of statuses.
const ENDED: u8 = 0;

const USAGE: u8 = 1;

const READ_FAULT: u8 = 2;

const WRITE_FAULT: u8 = 6;

const WORDS: &str = "solo img out --ram=1 --budget=3";

const TRACE: &str = "trace 1 harts 1 ram 1 budget 3
0 0 p fetch 0000000080000000 00700293
1 0 p end alu 0000000080000000 0000000080000004 x5 0000000000000007
2 0 p fetch 0000000080000004 0000006f
3 0 p end jump 0000000080000004 0000000080000004 x0 0000000000000000
4 0 p fetch 0000000080000004 0000006f
5 0 p end jump 0000000080000004 0000000080000004 x0 0000000000000000
6 0 p to k
7 0 k retire
stop budget
hart 0 ends 3 mode m pc 0000000080000004
hart 0 x5 0000000000000007
hart 0 csr 300 0000000a00000000
hart 0 csr b00 0000000000000003
hart 0 csr b02 0000000000000003
ram 575d345454397c06aea295d74398d2e121e4ea818b6b57ac788216150823cd36
done
";

// A program that loads the word that stands behind it, stores it over an instruction that follows, and executes that:
// `auipc x5, 0`, `lw x6, 20(x5)`, `sw x6, 12(x5)`, no instruction, `jal x0, 0`, and `addi x7, x0, 1` as the word.
const REWRITING: [u8; 24] = [
    0x97, 0x02, 0x00, 0x00, 0x03, 0xa3, 0x42, 0x01, 0x23, 0xa6, 0x62, 0x00, 0x00, 0x00, 0x00, 0x00,
    0x6f, 0x00, 0x00, 0x00, 0x93, 0x03, 0x10, 0x00,
];

// `auipc x5, 0`, `addi x5, x5, 16`, `csrrw x0, mtvec, x5`, `ecall`, and where that leads: `csrrs x6,
// mcause, x0`, `csrrs x7, time, x0`, `csrrs x8, mip, x0` and `mret`.
const TRAPPING: [u8; 32] = [
    0x97, 0x02, 0x00, 0x00, 0x93, 0x82, 0x02, 0x01, 0x73, 0x90, 0x52, 0x30, 0x73, 0x00, 0x00, 0x00,
    0x73, 0x23, 0x20, 0x34, 0xf3, 0x23, 0x10, 0xc0, 0x73, 0x24, 0x40, 0x34, 0x73, 0x00, 0x20, 0x30,
];

const TRAPPED: &str = "trace 1 harts 1 ram 1 budget 9
0 0 p fetch 0000000080000000 00000297
1 0 p end alu 0000000080000000 0000000080000004 x5 0000000080000000
2 0 p fetch 0000000080000004 01028293
3 0 p end alu 0000000080000004 0000000080000008 x5 0000000080000010
4 0 p fetch 0000000080000008 30529073
5 0 p to k
6 0 k end csr 0000000080000008 000000008000000c x0 0000000000000000
7 0 k to p
8 0 p fetch 000000008000000c 00000073
9 0 p to k
10 0 k end trap 000000008000000c 0000000080000010 000000000000000b 0000000000000000
11 0 k to p
12 0 p fetch 0000000080000010 34202373
13 0 p to k
14 0 k end csr 0000000080000010 0000000080000014 x6 000000000000000b
15 0 k to p
16 0 p fetch 0000000080000014 c01023f3
17 0 p to k
18 0 k time 0000000000000000
19 0 k end csr 0000000080000014 0000000080000018 x7 0000000000000000
20 0 k to p
21 0 p fetch 0000000080000018 34402473
22 0 p to k
23 0 k pulse 0 0000000000000000 0 0
24 0 k end csr 0000000080000018 000000008000001c x8 0000000000000000
25 0 k to p
26 0 p fetch 000000008000001c 30200073
27 0 p to k
28 0 k end system 000000008000001c 000000008000000c x0 0000000000000000
29 0 k pulse 0 0000000000000000 0 0
30 0 k to p
31 0 p fetch 000000008000000c 00000073
32 0 p to k
33 0 k end trap 000000008000000c 0000000080000010 000000000000000b 0000000000000000
34 0 k retire
stop budget
hart 0 ends 9 mode m pc 0000000080000010
hart 0 x5 0000000080000010
hart 0 x6 000000000000000b
hart 0 csr 300 0000000a00001800
hart 0 csr 305 0000000080000010
hart 0 csr 341 000000008000000c
hart 0 csr 342 000000000000000b
hart 0 csr b00 0000000000000009
hart 0 csr b02 0000000000000007
ram a362596712ccacd3187b8c0a258256d21846a7df9884485d810357a33acd0a78
done
";

const REWRITTEN: &str = "trace 1 harts 1 ram 1 budget 4
0 0 p fetch 0000000080000000 00000297
1 0 p end alu 0000000080000000 0000000080000004 x5 0000000080000000
2 0 p fetch 0000000080000004 0142a303
3 0 p read 0000000080000014 4 0000000000100393
4 0 p end load 0000000080000004 0000000080000008 x6 0000000000100393
5 0 p fetch 0000000080000008 0062a623
6 0 p write 000000008000000c 4 0000000000100393
7 0 p end store 0000000080000008 000000008000000c x0 0000000000000000
8 0 p fetch 000000008000000c 00100393
9 0 p end alu 000000008000000c 0000000080000010 x7 0000000000000001
10 0 p to k
11 0 k retire
stop budget
hart 0 ends 4 mode m pc 0000000080000010
hart 0 x5 0000000080000000
hart 0 x6 0000000000100393
hart 0 x7 0000000000000001
hart 0 csr 300 0000000a00000000
hart 0 csr b00 0000000000000004
hart 0 csr b02 0000000000000004
ram 836e82e96c7a713328e991a48d8ce3cc828032db51923773332412317edbeba4
done
";

// Of the three names of the order the second, 31, has no hart.
const OF_TWO: &str = "solo img out --harts=2 --ram=1 --budget=1 --order=1v0";

const TRACE_OF_TWO: &str = "trace 1 harts 2 ram 1 budget 1
0 1 p fetch 0000000080000000 00700293
1 0 p fetch 0000000080000000 00700293
2 0 p end alu 0000000080000000 0000000080000004 x5 0000000000000007
3 1 p end alu 0000000080000000 0000000080000004 x5 0000000000000007
4 0 p to k
5 0 k retire
6 1 p to k
7 1 k retire
stop budget
hart 0 ends 1 mode m pc 0000000080000004
hart 0 x5 0000000000000007
hart 0 csr 300 0000000a00000000
hart 0 csr b00 0000000000000001
hart 0 csr b02 0000000000000001
hart 1 ends 1 mode m pc 0000000080000004
hart 1 x5 0000000000000007
hart 1 x10 0000000000000001
hart 1 csr 300 0000000a00000000
hart 1 csr b00 0000000000000001
hart 1 csr b02 0000000000000001
ram 6738a083eaf81f79df5201d2dbefd9bcd382520c8f8182e9bb6f6a27fdd584e3
done
";

// The words of a line, split_run by one space each.
pub(crate) fn words_of(alloc: Global, line: &str) -> Result<Vec<String>, AllocError> {
    let mut words = Vec::new(alloc);
    for word in line.split(' ') {
        push_word(alloc, &mut words, word)?;
    }
    Ok(words)
}

fn push_word(alloc: Global, words: &mut Vec<String>, word: &str) -> Result<(), AllocError> {
    words.push(String::from_str(alloc, word)?)?;
    Ok(())
}

// What the words of the line come to where `img` is this image and the calls of these numbers fail.
fn run(
    alloc: Global,
    image: &[u8],
    line: &str,
    failing: &[u64],
) -> Result<(Status, MemoryOuter), AllocError> {
    run_with(alloc, image, b"", line, failing)
}

// The same, where `in` is this input.
fn run_with(
    alloc: Global,
    image: &[u8],
    input: &[u8],
    line: &str,
    failing: &[u64],
) -> Result<(Status, MemoryOuter), AllocError> {
    let words = words_of(alloc, line)?;
    let mut files = Vec::new(alloc);
    files.push((Text::of(alloc, b"img")?, Vec::from_slice(alloc, image)?))?;
    files.push((Text::of(alloc, b"in")?, Vec::from_slice(alloc, input)?))?;
    let failing = Vec::from_slice(alloc, failing)?;
    let mut outer = MemoryOuter::new(alloc, files, failing);
    let status = flex_top(alloc, &words, &mut outer);
    Ok((status, outer))
}

// The text of the file `out`, empty where it wasn't written.
fn text_of(outer: &MemoryOuter) -> &str {
    match outer.written("out") {
        Some(text) => str::from_utf8(text).unwrap_or(""),
        None => "",
    }
}

// What the words come to over an outside that never fails: a run that is to end ends, or memory runs out.
fn run_steadily(alloc: Global, words: &[String], outer: &mut SteadyOuter) -> Status
    ensures { (r : Reading) → reading (map string_bytes words.now) ≡ Some r
        → IsSomeAnd (⟦<SteadyOuter as Outer>⟧.outside outer.old).held (λ files. expected r (sources_among r files) ≡ Status.Ended)
        → IsEnded result }
{
    flex_top(alloc, words, outer)
}

#[test]
fn ends_over_a_steady_outside(rt: HostRuntime) -> Result<(), AllocError> {
    let alloc = rt.alloc();
    let mut files = Vec::new(alloc);
    files.push((Text::of(alloc, b"img")?, Vec::from_slice(alloc, &IMAGE)?))?;
    let mut outer = SteadyOuter::new(alloc, files);
    let words = words_of(alloc, "solo img out --harts=2 --ram=1")?;
    assert!(rt; status_code(&run_steadily(alloc, &words, &mut outer)) == ENDED);
    // A name that it wasn't given is an empty file, whose first word isn't an instruction.
    let words = words_of(alloc, "solo other out --ram=1")?;
    assert!(rt; status_code(&run_steadily(alloc, &words, &mut outer)) == ENDED);
    Ok(())
}

// That the words come to an end over this image, and the text is then the file `out`.
fn assert_trace(
    rt: &impl Abort,
    alloc: Global,
    image: &[u8],
    line: &str,
    text: &str,
) -> Result<(), AllocError> {
    let (status, outer) = run(alloc, image, line, &[])?;
    assert!(rt; status_code(&status) == ENDED);
    assert_eq!(rt; outer.written("out"), Some(text.as_bytes()));
    assert!(rt; outer.said().is_empty());
    Ok(())
}

#[test]
fn writes_the_trace_of_the_run(rt: HostRuntime) -> Result<(), AllocError> {
    assert_trace(&rt, rt.alloc(), &IMAGE, WORDS, TRACE)
}

#[test]
fn takes_the_harts_in_the_order(rt: HostRuntime) -> Result<(), AllocError> {
    assert_trace(&rt, rt.alloc(), &IMAGE[..4], OF_TWO, TRACE_OF_TWO)
}

#[test]
fn executes_what_it_stored(rt: HostRuntime) -> Result<(), AllocError> {
    let line = "solo img out --ram=1 --budget=4";
    assert_trace(&rt, rt.alloc(), &REWRITING, line, REWRITTEN)
}

#[test]
fn takes_traps_and_returns(rt: HostRuntime) -> Result<(), AllocError> {
    let line = "solo img out --ram=1 --budget=9";
    assert_trace(&rt, rt.alloc(), &TRAPPING, line, TRAPPED)
}

#[test]
fn reads_the_image_before_it_writes(rt: HostRuntime) -> Result<(), AllocError> {
    let line = "solo img img --ram=1 --budget=3";
    let (status, outer) = run(rt.alloc(), &IMAGE, line, &[])?;
    assert!(rt; status_code(&status) == ENDED);
    assert!(rt; outer.written("img") == Some(TRACE.as_bytes()));
    Ok(())
}

#[test]
fn answers_by_the_words(rt: HostRuntime) -> Result<(), AllocError> {
    for (line, status) in [
        ("solo img out --ram=0000000001 --budget=0000000003", ENDED),
        ("solo img out --ram=1 --budget=64", ENDED),
        ("solo img out --ram=1 --budget=65", ENDED),
        ("solo none out --ram=1 --budget=3", READ_FAULT),
        ("run img out --ram=1 --budget=3", USAGE),
        ("solo img out --ram=1 --budget=262145", USAGE),
        ("solo img out --budget=3 --ram=1", ENDED),
        ("solo img out --ram=1 --ram=1", USAGE),
        (
            "solo img out --harts=32 --ram=1 --budget=3 --order=v0v1",
            ENDED,
        ),
        ("", USAGE),
    ] {
        assert_words(&rt, rt.alloc(), line, status)?;
    }
    Ok(())
}

fn assert_words(rt: &impl Abort, alloc: Global, line: &str, status: u8) -> Result<(), AllocError> {
    let (answer, outer) = run(alloc, &IMAGE, line, &[])?;
    assert!(rt; status_code(&answer) == status, "{line}");
    assert!(rt;
        outer.written("out").is_some() == (status == ENDED),
        "{line}"
    );
    Ok(())
}

#[test]
fn answers_by_the_call_that_fails(rt: HostRuntime) -> Result<(), AllocError> {
    for (call, status, written) in [
        (0, READ_FAULT, None),
        (1, WRITE_FAULT, None),
        (2, WRITE_FAULT, Some("")),
        (3, ENDED, Some(TRACE)),
    ] {
        assert_call(&rt, rt.alloc(), call, status, written)?;
    }
    Ok(())
}

fn assert_call(
    rt: &impl Abort,
    alloc: Global,
    call: u64,
    status: u8,
    written: Option<&str>,
) -> Result<(), AllocError> {
    let (answer, outer) = run(alloc, &IMAGE, WORDS, &[call])?;
    assert!(rt; status_code(&answer) == status, "at {call}");
    assert!(rt;
        outer.written("out").is_some() == written.is_some(),
        "at {call}"
    );
    let text = written.unwrap_or("");
    assert!(rt;
        outer.written("out").unwrap_or(b"") == text.as_bytes(),
        "at {call}"
    );
    Ok(())
}

// The second piece of a longer trace.
#[test]
fn keeps_what_was_written_before_a_fault(rt: HostRuntime) -> Result<(), AllocError> {
    let line = "solo img out --ram=1 --budget=2000";
    let (whole, full) = run(rt.alloc(), &[0x6f, 0, 0, 0], line, &[])?;
    assert!(rt; status_code(&whole) == ENDED);
    let (status, outer) = run(rt.alloc(), &[0x6f, 0, 0, 0], line, &[3])?;
    assert!(rt; status_code(&status) == WRITE_FAULT);
    assert!(rt; text_of(&outer).len() == 65_536);
    assert!(rt; text_of(&full).starts_with(text_of(&outer)));
    Ok(())
}

#[test]
fn answers_by_the_image(rt: HostRuntime) -> Result<(), AllocError> {
    let alloc = rt.alloc();
    let whole = vec![in alloc; 0; 1_048_576]?;
    let longer = vec![in alloc; 0; 1_048_577]?;
    assert_image(&rt, alloc, &longer, ImageFault::SegmentOutsideRam(0))?;
    let (answer, _) = run(
        alloc,
        whole.as_slice(),
        "solo img out --ram=1 --budget=9",
        &[],
    )?;
    assert!(rt; status_code(&answer) == ENDED);
    Ok(())
}

// That the image is refused so, and nothing is written.
fn assert_image(
    rt: &impl Abort,
    alloc: Global,
    image: &[u8],
    fault: ImageFault,
) -> Result<(), AllocError> {
    let line = "solo img out --ram=1 --budget=9";
    let (answer, outer) = run(alloc, image, line, &[])?;
    assert!(rt; refuses_image(&answer, fault));
    assert!(rt; outer.written("out").is_none());
    Ok(())
}

fn refuses_image(answer: &Status, fault: ImageFault) -> bool {
    match answer {
        Status::ImageRefused(found) => *found == fault,
        _ => false,
    }
}
