// Programs that use the devices: the console, the timer, software interrupts, waits and power off.

use super::programs::{assert_parts, image_of, run_to_end};
use super::{ENDED, READ_FAULT, WRITE_FAULT, assert_trace, run, run_with, text_of};
use crate::status::{Status, status_code};
use flex_base::MemoryOuter;
use std::alloc::{AllocError, Global};
use std::process::Abort;

// `addi x5, x0, 7`, and 5555 stored to the test device, which turns the power off.
const POWER_OFF: [u32; 5] = [0x00700293, 0x00100337, 0x000053b7, 0x55538393, 0x00732023];

const POWERED_OFF: &str = "trace 1 harts 1 ram 1 budget 1024
0 0 p fetch 0000000080000000 00700293
1 0 p end alu 0000000080000000 0000000080000004 x5 0000000000000007
2 0 p fetch 0000000080000004 00100337
3 0 p end alu 0000000080000004 0000000080000008 x6 0000000000100000
4 0 p fetch 0000000080000008 000053b7
5 0 p end alu 0000000080000008 000000008000000c x7 0000000000005000
6 0 p fetch 000000008000000c 55538393
7 0 p end alu 000000008000000c 0000000080000010 x7 0000000000005555
8 0 p fetch 0000000080000010 00732023
9 0 p to h
10 0 h devwrite 0000000000100000 4 0000000000005555
11 0 h end device 0000000080000010 0000000080000014 x0 0000000000000000
12 0 h to k
13 0 k pulse 0 0000000000000000 0 1
stop off 0
hart 0 ends 5 mode m pc 0000000080000014
hart 0 x5 0000000000000007
hart 0 x6 0000000000100000
hart 0 x7 0000000000005555
hart 0 csr 300 0000000a00000000
hart 0 csr b00 0000000000000005
hart 0 csr b02 0000000000000005
ram 61c46765070c5ac9ee63b1db58d41ed256f26962914e0a9e5581d726b8f3ceeb
done
";

#[test]
fn powers_off(rt: HostRuntime) -> Result<(), AllocError> {
    let image = image_of(rt.alloc(), &POWER_OFF)?;
    let line = "solo img out --ram=1 --budget=1024";
    assert_trace(&rt, rt.alloc(), &image, line, POWERED_OFF)
}

// Turns the timer's line on, enables its interrupt alone, and returns to 80000040, where it is taken at once.
const RETURNING: [u32; 13] = [
    0x020042b7, 0x0002b023, 0x08000393, 0x30439073, 0x00000317, 0x0f130313, 0x30531073, 0xf3f30313,
    0x34131073, 0x00002437, 0x88040413, 0x30041073, 0x30200073,
];

const RETURNED: [&str; 2] = [
    " k end system 0000000080000030 0000000080000040 x0 0000000000000000\n",
    " k end trap 0000000080000040 000000008000011c 8000000000000007 0000000000000000\n",
];

#[test]
fn takes_a_timer_interrupt_after_a_return(rt: HostRuntime) -> Result<(), AllocError> {
    let line = "solo img out --ram=1 --budget=14";
    let outer = run_to_end(&rt, rt.alloc(), &RETURNING, line)?;
    assert_parts(&rt, &outer, &RETURNED);
    let both = text_of(&outer).contains(
        "0000000080000040 x0 0000000000000000\n42 0 k pulse 0 0000000000000080 0 0\n43 0 k end trap",
    );
    assert!(rt; both);
    Ok(())
}

// Sets the compare value to 1,000, enables the timer's interrupt, and waits; time jumps there.
const WAITING: [u32; 6] = [
    0x020042b7, 0x3e800313, 0x0062b023, 0x08000393, 0x30439073, 0x10500073,
];

const WAITED: &str = "trace 1 harts 1 ram 1 budget 6
0 0 p fetch 0000000080000000 020042b7
1 0 p end alu 0000000080000000 0000000080000004 x5 0000000002004000
2 0 p fetch 0000000080000004 3e800313
3 0 p end alu 0000000080000004 0000000080000008 x6 00000000000003e8
4 0 p fetch 0000000080000008 0062b023
5 0 p to h
6 0 h devwrite 0000000002004000 8 00000000000003e8
7 0 h end device 0000000080000008 000000008000000c x0 0000000000000000
8 0 h to k
9 0 k pulse 0 0000000000000000 0 0
10 0 k to p
11 0 p fetch 000000008000000c 08000393
12 0 p end alu 000000008000000c 0000000080000010 x7 0000000000000080
13 0 p fetch 0000000080000010 30439073
14 0 p to k
15 0 k end csr 0000000080000010 0000000080000014 x0 0000000000000000
16 0 k pulse 0 0000000000000000 0 0
17 0 k to p
18 0 p fetch 0000000080000014 10500073
19 0 p to k
20 0 k wait 0000000000000080 0000000000000080 0 0
21 0 k end system 0000000080000014 0000000080000018 x0 0000000000000000
22 0 k retire
stop budget
hart 0 ends 6 mode m pc 0000000080000018
hart 0 x5 0000000002004000
hart 0 x6 00000000000003e8
hart 0 x7 0000000000000080
hart 0 csr 300 0000000a00000000
hart 0 csr 304 0000000000000080
hart 0 csr 344 0000000000000080
hart 0 csr b00 0000000000000006
hart 0 csr b02 0000000000000006
ram 6271975c63a4ef2a1cd5b607212fbd4d22dc5d6581d6d9641910473ce05315b7
done
";

// Without a compare value nothing can wake the hart.
const IDLE: &str = "trace 1 harts 1 ram 1 budget 6
0 0 p fetch 0000000080000000 08000393
1 0 p end alu 0000000080000000 0000000080000004 x7 0000000000000080
2 0 p fetch 0000000080000004 30439073
3 0 p to k
4 0 k end csr 0000000080000004 0000000080000008 x0 0000000000000000
5 0 k pulse 0 0000000000000000 0 0
6 0 k to p
7 0 p fetch 0000000080000008 10500073
8 0 p to k
9 0 k wait 0000000000000080 0000000000000000 1 1
stop idle
hart 0 ends 2 mode m pc 0000000080000008
hart 0 x7 0000000000000080
hart 0 csr 300 0000000a00000000
hart 0 csr 304 0000000000000080
hart 0 csr b00 0000000000000002
hart 0 csr b02 0000000000000002
ram d40a91ea5ca169d50f29c919c4fe9a2e97c4c5c58755a06054a0b1a1432a0657
done
";

#[test]
fn waits_for_the_timer(rt: HostRuntime) -> Result<(), AllocError> {
    let line = "solo img out --ram=1 --budget=6";
    let image = image_of(rt.alloc(), &WAITING)?;
    assert_trace(&rt, rt.alloc(), &image, line, WAITED)?;
    let without = image_of(rt.alloc(), &WAITING[3..])?;
    assert_trace(&rt, rt.alloc(), &without, line, IDLE)
}

// Hart 1 waits for a software interrupt; hart 0 sends it one and turns the power off.
const WAKING: [u32; 12] = [
    0x02051063, 0x020002b7, 0x00100313, 0x0062a223, 0x00100337, 0x000053b7, 0x55538393, 0x00732023,
    0x00800413, 0x30441073, 0x10500073, 0x0000006f,
];

// Hart 1 makes the events up to its wait, and then hart 0 those up to the pulse that tells it the stop.
const TO_THE_STOP: &str =
    "solo img out --harts=2 --ram=1 --budget=20 --order=11111111100000000000000000000";

#[test]
fn ends_where_a_woken_hart_still_waits(rt: HostRuntime) -> Result<(), AllocError> {
    let outer = run_to_end(&rt, rt.alloc(), &WAKING, TO_THE_STOP)?;
    let parts = [
        " 1 k wait 0000000000000008 0000000000000000 1 0\n",
        " 0 k pulse 0 0000000000000000 0 1\nstop off 0\n",
        "\nhart 1 ends 3 mode m pc 0000000080000028\n",
    ];
    assert_parts(&rt, &outer, &parts);
    // Where the order names it, it still makes its pulse, and is then over.
    let mut line = String::from_str(rt.alloc(), TO_THE_STOP)?;
    line.push_str("11")?;
    let outer = run_to_end(&rt, rt.alloc(), &WAKING, &line)?;
    let parts = [
        " 1 k pulse 0 0000000000000008 0 1\nstop off 0\n",
        "\nhart 1 ends 3 mode m pc 0000000080000028\n",
    ];
    assert_parts(&rt, &outer, &parts);
    Ok(())
}

// Each hart but hart 0 waits for nothing; hart 0 turns the power off.
const LEAVING: [u32; 7] = [
    0x00051a63, 0x00100337, 0x000053b7, 0x55538393, 0x00732023, 0x10500073, 0x0000006f,
];

#[test]
fn powers_off_while_others_wait(rt: HostRuntime) -> Result<(), AllocError> {
    let line = "solo img out --harts=3 --ram=1 --budget=100";
    let outer = run_to_end(&rt, rt.alloc(), &LEAVING, line)?;
    let parts = [
        " 1 k wait 0000000000000000 0000000000000000 1 0\n",
        " 2 k wait 0000000000000000 0000000000000000 1 0\n",
        " 0 k pulse 0 0000000000000000 0 1\nstop off 0\nhart 0 ends 5 ",
        "\nhart 1 ends 1 mode m pc 0000000080000014\n",
        "\nhart 2 ends 1 mode m pc 0000000080000014\n",
    ];
    assert_parts(&rt, &outer, &parts);
    Ok(())
}

// Sends `H` and `i` to the console and turns the power off.
const GREETING: [u32; 9] = [
    0x100002b7, 0x04800313, 0x00628023, 0x06900313, 0x00628023, 0x00100337, 0x000053b7, 0x55538393,
    0x00732023,
];

#[test]
fn says_what_was_sent(rt: HostRuntime) -> Result<(), AllocError> {
    let outer = run_to_end(&rt, rt.alloc(), &GREETING, "solo img out --ram=1")?;
    assert!(rt; outer.said() == b"Hi".as_slice());
    assert_parts(
        &rt,
        &outer,
        &["stop off 0\nhart 0 ends 9 mode m pc 0000000080000024\n"],
    );
    // In the order of the accesses, and not hart by hart.
    let line = "solo img out --ram=1 --harts=2 --budget=5";
    let outer = run_to_end(&rt, rt.alloc(), &GREETING, line)?;
    assert!(rt; outer.said() == b"HHii".as_slice());
    Ok(())
}

#[test]
fn answers_by_the_call_that_fails(rt: HostRuntime) -> Result<(), AllocError> {
    for (call, status, said, written) in [
        (0, READ_FAULT, "", None),
        (1, READ_FAULT, "", None),
        (2, WRITE_FAULT, "", None),
        (3, WRITE_FAULT, "Hi", None),
        (4, WRITE_FAULT, "Hi", Some(0)),
        (5, ENDED, "Hi", Some(1643)),
    ] {
        assert_call(&rt, rt.alloc(), call, status, said, written)?;
    }
    Ok(())
}

// That the status is this one where the call of this number fails, and what was said and how many bytes were written then.
fn assert_call(
    rt: &impl Abort,
    alloc: Global,
    call: u64,
    status: u8,
    said: &str,
    written: Option<usize>,
) -> Result<(), AllocError> {
    let image = image_of(alloc, &GREETING)?;
    let line = "solo img out --ram=1 --budget=9 --input=in";
    let (answer, outer) = run_with(alloc, &image, b"x", line, &[call])?;
    assert!(rt; status_code(&answer) == status, "at {call}");
    assert!(rt; outer.said() == said.as_bytes(), "at {call}");
    assert_eq!(rt; outer.written("out").map(|text| text.len()), written);
    Ok(())
}

// Reads the line status and a byte, twice.
const READING: [u32; 5] = [0x100002b7, 0x0052c303, 0x0002c383, 0x0052c403, 0x0002c483];

// What is left by a run of this program with this input.
fn read_twice(
    rt: &impl Abort,
    alloc: Global,
    input: &[u8],
    line: &str,
) -> Result<MemoryOuter, AllocError> {
    let image = image_of(alloc, &READING)?;
    let (status, outer) = run_with(alloc, &image, input, line, &[])?;
    assert!(rt; status_code(&status) == ENDED);
    Ok(outer)
}

const WITH_INPUT: &str = "solo img out --ram=1 --budget=5 --input=in";

#[test]
fn reads_the_input(rt: HostRuntime) -> Result<(), AllocError> {
    let none = [
        " h end device 0000000080000004 0000000080000008 x6 0000000000000060\n",
        " h end device 0000000080000008 000000008000000c x7 0000000000000000\n",
        " h end device 000000008000000c 0000000080000010 x8 0000000000000060\n",
        " h end device 0000000080000010 0000000080000014 x9 0000000000000000\n",
    ];
    let outer = read_twice(&rt, rt.alloc(), b"", WITH_INPUT)?;
    assert_parts(&rt, &outer, &none);
    let outer = read_twice(&rt, rt.alloc(), b"A", "solo img out --ram=1 --budget=5")?;
    assert_parts(&rt, &outer, &none);
    let one = [
        " h devread 0000000010000005 1 0000000000000061\n",
        " h devread 0000000010000000 1 0000000000000041\n",
        " h devread 0000000010000005 1 0000000000000060\n",
        " h devread 0000000010000000 1 0000000000000000\n",
    ];
    let outer = read_twice(&rt, rt.alloc(), b"A", WITH_INPUT)?;
    assert_parts(&rt, &outer, &one);
    Ok(())
}

#[test]
fn limits_the_input(rt: HostRuntime) -> Result<(), AllocError> {
    let alloc = rt.alloc();
    let longest = vec![in alloc; b'A'; 1_048_576]?;
    let outer = read_twice(&rt, alloc, &longest, WITH_INPUT)?;
    assert_parts(&rt, &outer, &[" x9 0000000000000041\n"]);
    let longer = vec![in alloc; b'A'; 1_048_577]?;
    let image = image_of(alloc, &READING)?;
    let (status, outer) = run_with(alloc, &image, &longer, WITH_INPUT, &[])?;
    assert!(rt; matches!(status, Status::InputTooLong(1_048_577)));
    assert!(rt; outer.written("out").is_none());
    Ok(())
}

// The image comes before the input, and an input that isn't named isn't read.
#[test]
fn refuses_in_order(rt: HostRuntime) -> Result<(), AllocError> {
    for (line, status) in [
        ("solo none out --input=none", READ_FAULT),
        ("solo img out --ram=1 --input=none", READ_FAULT),
        ("solo img out --input=img --ram=1 --budget=1", ENDED),
        ("solo img out --ram=1 --budget=1", ENDED),
    ] {
        let image = image_of(rt.alloc(), &POWER_OFF)?;
        let (answer, _) = run(rt.alloc(), &image, line, &[])?;
        assert!(rt; status_code(&answer) == status, "{line}");
    }
    Ok(())
}
