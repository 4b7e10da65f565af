use super::*;
use crate::tests::words_of;
use std::process::Abort;

#[test]
fn reads_the_words(rt: HostRuntime) -> Result<(), AllocError> {
    for (line, harts, ram, budget, order) in [
        ("solo img out", 1, 16, 8192, ""),
        ("solo img out --harts=32", 32, 16, 8192, ""),
        ("solo img out --ram=1", 1, 1, 8192, ""),
        ("solo img out --budget=1", 1, 16, 1, ""),
        ("solo img out --order=09av", 1, 16, 8192, "09av"),
        ("solo img out --ram=256 --budget=3", 1, 256, 3, ""),
        ("solo img out --budget=262144 --ram=3", 1, 3, 262_144, ""),
        ("solo img out --harts=32 --budget=8192", 32, 16, 8192, ""),
        ("solo img out --budget=8456 --harts=31", 31, 16, 8456, ""),
        ("solo img out --budget=0000000003", 1, 16, 3, ""),
        ("solo img out --harts=02 --ram=0000000003", 2, 3, 8192, ""),
        (
            "solo img out --harts=4 --ram=2 --budget=8 --order=1",
            4,
            2,
            8,
            "1",
        ),
        (
            "solo img out --order=v --budget=5 --ram=1 --harts=2",
            2,
            1,
            5,
            "v",
        ),
        (
            "solo img out --ram=7 --order=01 --harts=3 --budget=9",
            3,
            7,
            9,
            "01",
        ),
    ] {
        let settings = (harts, ram, budget);
        assert_reading(&rt, rt.alloc(), line, settings, order)?;
    }
    Ok(())
}

// That the line is a command for so many harts, MiB and ends of each hart, and this order.
fn assert_reading(
    rt: &impl Abort,
    alloc: Global,
    line: &str,
    (harts, mebibytes, budget): (u8, u64, u64),
    order: &str,
) -> Result<(), AllocError> {
    let words = words_of(alloc, line)?;
    let settings = Settings {
        harts,
        ram: MEBIBYTE.wrapping_mul(mebibytes),
        budget,
    };
    let command = read_solo(&words);
    assert!(rt;
        command.is_some_and(|command| is_command(&command, settings, order)),
        "{line}"
    );
    Ok(())
}

fn is_command(command: &Command, settings: Settings, order: &str) -> bool {
    command.image == "img"
        && command.trace == "out"
        && command.settings == settings
        && command.order == order.as_bytes()
}

// Words without a reading, a case a line.
const NO_READING: &str = "solo
run img out
Solo img out
solo img
solo img out more
solo  out
solo -img out
solo img -
solo --ram=1 --budget=1 img out
solo img --ram=1 out
solo img out --harts=1 more
solo img out --input=
solo img out --input
solo img out --input in
solo img out --input=a --input=a
solo img out --plan=
solo img out --plan
solo img out --plan in
solo img out --plan=a --plan=a
solo img out --Plan=a
solo img out --Input=a
solo img out --RAM=1
solo img out -ram=1
solo img out --ram
solo img out --ram 1
solo img out --ram 1 --budget=1
solo img out --order 0
solo img out --harts=1 --harts=1
solo img out --ram=1 --ram=1
solo img out --ram=1 --budget=1 --ram=2
solo img out --budget=1 --ram=1 --budget=1
solo img out --order=0 --order=0
solo img out --harts=0
solo img out --harts=33
solo img out --ram=0
solo img out --ram=257
solo img out --budget=0
solo img out --budget=262145
solo img out --harts=32 --budget=8193
solo img out --budget=131073 --harts=2
solo img out --harts=00000000001
solo img out --ram=00000000001
solo img out --budget=00000000001
solo img out --harts=
solo img out --ram=
solo img out --budget=
solo img out --order=
solo img out --harts=a
solo img out --ram=1k
solo img out --ram=+1
solo img out --budget=-1
solo img out --order=w
solo img out --order=A
solo img out --order=0,1";

#[test]
fn refuses_other_words(rt: HostRuntime) -> Result<(), AllocError> {
    let none: [String; 0] = [];
    assert!(rt; read_solo(&none).is_none());
    for line in NO_READING.split('\n') {
        assert_refused(&rt, rt.alloc(), line)?;
    }
    for line in ["", "solo img ", "solo img out --ram=1 "] {
        assert_refused(&rt, rt.alloc(), line)?;
    }
    Ok(())
}

fn assert_refused(rt: &impl Abort, alloc: Global, line: &str) -> Result<(), AllocError> {
    let words = words_of(alloc, line)?;
    assert!(rt; read_solo(&words).is_none(), "a reading of {line}");
    Ok(())
}

// `solo img out` with an order of so many characters.
fn words_with_order(alloc: Global, characters: u32) -> Result<Vec<String>, AllocError> {
    let mut words = words_of(alloc, "solo img out")?;
    let mut order = String::from_str(alloc, "--order=")?;
    for _ in 0..characters {
        order.push('v')?;
    }
    words.push(order)?;
    Ok(words)
}

#[test]
fn limits_the_order(rt: HostRuntime) -> Result<(), AllocError> {
    let words = words_with_order(rt.alloc(), 65_536)?;
    match read_solo(&words) {
        Some(command) => assert_eq!(rt; command.order.len(), 65_536),
        None => assert!(rt; false, "no reading"),
    }
    let more = words_with_order(rt.alloc(), 65_537)?;
    assert!(rt; read_solo(&more).is_none());
    Ok(())
}

#[test]
fn reads_the_names_of_plan_and_input(rt: HostRuntime) -> Result<(), AllocError> {
    for (line, plan, input) in [
        ("solo img out", None, None),
        ("solo img out --input=in", None, Some("in")),
        ("solo img out --plan=in", Some("in"), None),
        (
            "solo img out --ram=1 --input=-- --order=0",
            None,
            Some("--"),
        ),
        (
            "solo img out --input=img --plan=--plan= --budget=1",
            Some("--plan="),
            Some("img"),
        ),
    ] {
        assert_names(&rt, rt.alloc(), line, plan, input)?;
    }
    Ok(())
}

fn assert_names(
    rt: &impl Abort,
    alloc: Global,
    line: &str,
    plan: Option<&str>,
    input: Option<&str>,
) -> Result<(), AllocError> {
    let words = words_of(alloc, line)?;
    let command = read_solo(&words);
    assert!(rt;
        command.is_some_and(|command| command.plan == plan && command.input == input),
        "{line}"
    );
    Ok(())
}

#[test]
fn names_the_harts(rt: HostRuntime) -> Result<(), AllocError> {
    let harts = harts_named(rt.alloc(), b"09avwA:`/\x00\xff")?;
    assert!(rt; harts.as_slice() == [0, 9, 10, 31, 32, 32, 32, 32, 32, 32, 32].as_slice());
    Ok(())
}
