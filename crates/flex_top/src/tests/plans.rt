// One image under several plans, and the files that are no plan.

use super::{ENDED, IMAGE, READ_FAULT, USAGE, words_of};
use crate::status::{Status, status_code};
use crate::top::flex_top;
use flex_base::{MemoryOuter, Text};
use std::alloc::{AllocError, Global};
use std::process::Abort;

// What the words come to where `img` is the image, and `plan` is this plan.
fn run_planned(
    alloc: Global,
    plan: &[u8],
    line: &str,
) -> Result<(Status, MemoryOuter), AllocError> {
    let words = words_of(alloc, line)?;
    let mut files = Vec::new(alloc);
    files.push((Text::of(alloc, b"img")?, Vec::from_slice(alloc, &IMAGE)?))?;
    files.push((Text::of(alloc, b"plan")?, Vec::from_slice(alloc, plan)?))?;
    let mut outer = MemoryOuter::new(alloc, files, Vec::new(alloc));
    let status = flex_top(alloc, &words, &mut outer);
    Ok((status, outer))
}

const PLANNED: &str = "solo img out --ram=1 --budget=1 --plan=plan";

const HEADER: &[u8] = b"trace 1 harts 1 ram 1 budget 1\n";

const TAIL: &[u8] = b"stop budget
hart 0 ends 1 mode m pc 0000000080000004
hart 0 x5 0000000000000007
hart 0 csr 300 0000000a00000000
hart 0 csr b00 0000000000000001
hart 0 csr b02 0000000000000001
ram 575d345454397c06aea295d74398d2e121e4ea818b6b57ac788216150823cd36
done
";

const ALL_HOST: &[u8] = b"[engine]
fetch = 'host'
alu = 'host'
muldiv = 'host'
jump = 'host'
load = 'host'
store = 'host'
atomic = 'host'
fence = 'host'
csr = 'host'
system = 'host'
walk = 'host'
trap = 'host'
pulse = 'host'
";

const BY_DEFAULT: &[u8] = b"0 0 p fetch 0000000080000000 00700293
1 0 p end alu 0000000080000000 0000000080000004 x5 0000000000000007
2 0 p to k
3 0 k retire
";

const IN_HOST: &[u8] = b"0 0 h fetch 0000000080000000 00700293
1 0 h end alu 0000000080000000 0000000080000004 x5 0000000000000007
2 0 h retire
";

const WITH_ALU_IN_KERNEL: &[u8] = b"0 0 p fetch 0000000080000000 00700293
1 0 p to k
2 0 k end alu 0000000080000000 0000000080000004 x5 0000000000000007
3 0 k retire
";

#[test]
fn splits_by_the_plan(rt: HostRuntime) -> Result<(), AllocError> {
    for (plan, events) in [
        (b"".as_slice(), BY_DEFAULT),
        (b"banks = 64\npipes = 8".as_slice(), BY_DEFAULT),
        (ALL_HOST, IN_HOST),
        (b"engine.alu = 'kernel'".as_slice(), WITH_ALU_IN_KERNEL),
    ] {
        assert_split(&rt, rt.alloc(), plan, events)?;
    }
    Ok(())
}

// That the run ends under this plan, and its trace has these lines of events.
fn assert_split(
    rt: &impl Abort,
    alloc: Global,
    plan: &[u8],
    events: &[u8],
) -> Result<(), AllocError> {
    let (status, outer) = run_planned(alloc, plan, PLANNED)?;
    assert_eq!(rt; status_code(&status), ENDED);
    let mut text = Vec::from_slice(alloc, HEADER)?;
    text.extend_from_slice(events)?;
    text.extend_from_slice(TAIL)?;
    assert!(rt; outer.written("out") == Some(text.as_slice()));
    Ok(())
}

// Each fault of a file, by its number.
#[test]
fn refuses_what_is_no_plan(rt: HostRuntime) -> Result<(), AllocError> {
    for (plan, number) in [
        (b"\xff".as_slice(), 1),
        (b"banks =".as_slice(), 2),
        (b"engine.vector = 'host'".as_slice(), 3),
        (b"engine.alu = 'fpga'".as_slice(), 4),
        (b"engine.csr = 'pipe'".as_slice(), 5),
        (b"banks = 3".as_slice(), 6),
    ] {
        assert_fault(&rt, rt.alloc(), plan, number)?;
    }
    Ok(())
}

// That the plan is refused by the fault of this number, and nothing is written.
fn assert_fault(rt: &impl Abort, alloc: Global, plan: &[u8], number: u8) -> Result<(), AllocError> {
    let (status, outer) = run_planned(alloc, plan, PLANNED)?;
    assert_eq!(rt; fault_of(&status), number);
    assert!(rt; outer.written("out").is_none());
    Ok(())
}

// The number of the fault by which a plan is refused; 0 where none is.
fn fault_of(status: &Status) -> u8 {
    match status {
        Status::PlanRefused(fault) => fault.number(),
        _ => 0,
    }
}

// A comment of so many bytes.
fn comment_of(alloc: Global, bytes: usize) -> Result<Vec<u8>, AllocError> {
    vec![in alloc; b'#'; bytes]
}

#[test]
fn limits_the_plan(rt: HostRuntime) -> Result<(), AllocError> {
    let longest = comment_of(rt.alloc(), 65_536)?;
    assert_split(&rt, rt.alloc(), &longest, BY_DEFAULT)?;
    let longer = comment_of(rt.alloc(), 65_537)?;
    assert_fault(&rt, rt.alloc(), &longer, 8)
}

// The plan comes after the words and before the image, and one that isn't named isn't read.
#[test]
fn takes_the_plan_first(rt: HostRuntime) -> Result<(), AllocError> {
    for (line, status) in [
        ("solo none out --plan=plan --ram=0", USAGE),
        ("solo none out --plan=plan", 4),
        ("solo none out --plan=none", READ_FAULT),
        ("solo img out --plan=none --ram=1 --budget=1", READ_FAULT),
        ("solo none out --ram=1 --budget=1", READ_FAULT),
        ("solo img out --ram=1 --budget=1", ENDED),
    ] {
        assert_order(&rt, rt.alloc(), line, status)?;
    }
    Ok(())
}

// That the status is this one where the file `plan` is no plan.
fn assert_order(rt: &impl Abort, alloc: Global, line: &str, status: u8) -> Result<(), AllocError> {
    let (answer, _) = run_planned(alloc, b"banks = 3", line)?;
    assert!(rt; status_code(&answer) == status, "{line}");
    Ok(())
}
