use super::*;
use flex_base::{
    Access, AmoOp, Class, EndPart, Engine, Event, HartId, Line, Mode, Reply, Settings, Stop, What,
};
use std::alloc::{AllocError, Global};
use std::process::Abort;

fn reply(value: u64, lines: u64, stop: bool) -> Reply {
    Reply { value, lines, stop }
}

fn end(class: Class, next: u64, first: u64, second: u64) -> What {
    What::End(EndPart {
        class,
        pc: 0x8000_0004,
        next,
        first,
        second,
    })
}

// Whether the event's line is its number, its hart, its engine and this text.
fn assert_event(
    rt: &impl Abort,
    alloc: Global,
    event: &Event,
    text: &str,
) -> Result<(), AllocError> {
    let mut line = Line::new();
    put_event(event, &mut Number::of(0), &mut line);
    let (number, hart) = (event.number, event.hart.0);
    let whole = format!(in alloc; "{number} {hart} p {text}\n")?;
    assert!(rt; line.bytes() == whole.as_bytes(), "not {whole}");
    Ok(())
}

fn event(number: u64, hart: u8, what: What) -> Event {
    Event {
        number,
        hart: HartId(hart),
        engine: Engine::Pipe,
        what,
    }
}

#[rattlefmt::skip]
#[test]
fn writes_each_access(rt: HostRuntime) -> Result<(), AllocError> {
    let address = 0x8000_0100;
    let value = 0x0123_4567_89ab_cdef;
    for (access, reply, text) in [
        (Access::Fetch { address }, reply(0x0070_0293, 0, false), "fetch 0000000080000100 00700293"),
        (Access::Pte { address }, reply(0x2000_00cf, 0, false), "pte 0000000080000100 00000000200000cf"),
        (Access::Read { address, width: 8 }, reply(value, 0, false), "read 0000000080000100 8 0123456789abcdef"),
        (Access::Write { address, width: 1, value: 255 }, reply(0, 0, false), "write 0000000080000100 1 00000000000000ff"),
        (Access::Lr { address, width: 4 }, reply(10, 0, false), "lr 0000000080000100 4 000000000000000a"),
        (Access::Sc { address, width: 8, value }, reply(0, 0, false), "sc 0000000080000100 8 0123456789abcdef 0"),
        (Access::Sc { address, width: 2, value: 1 }, reply(1, 0, false), "sc 0000000080000100 2 0000000000000001 1"),
        (Access::Amo { op: AmoOp::Minu, address, width: 8, value }, reply(16, 0, false), "amo minu 0000000080000100 8 0123456789abcdef 0000000000000010"),
        (Access::DevRead { address, width: 1 }, reply(0x60, 0, false), "devread 0000000080000100 1 0000000000000060"),
        (Access::DevWrite { address, width: 8, value: 1000 }, reply(0, 0, false), "devwrite 0000000080000100 8 00000000000003e8"),
        (Access::Pulse { tick: false }, reply(0, 0, false), "pulse 0 0000000000000000 0 0"),
        (Access::Pulse { tick: true }, reply(1, 128, true), "pulse 1 0000000000000080 1 1"),
        (Access::Wait { mie: 128 }, reply(1, 8, false), "wait 0000000000000080 0000000000000008 1 0"),
        (Access::Retire, reply(0, 0, false), "retire"),
        (Access::Time, reply(11, 0, false), "time 000000000000000b"),
    ] {
        assert_event(&rt, rt.alloc(), &event(7, 31, What::Acc(access, reply)), text)?;
    }
    Ok(())
}

#[test]
fn names_each_operation(rt: HostRuntime) -> Result<(), AllocError> {
    for (op, name) in [
        (AmoOp::Swap, "swap"),
        (AmoOp::Add, "add"),
        (AmoOp::Xor, "xor"),
        (AmoOp::And, "and"),
        (AmoOp::Or, "or"),
        (AmoOp::Min, "min"),
        (AmoOp::Max, "max"),
        (AmoOp::Minu, "minu"),
        (AmoOp::Maxu, "maxu"),
    ] {
        let access = Access::Amo {
            op,
            address: 8,
            width: 4,
            value: 1,
        };
        let text = format!(in rt.alloc();
            "amo {name} 0000000000000008 4 0000000000000001 0000000000000002"
        )?;
        let happened = What::Acc(access, reply(2, 0, false));
        assert_event(&rt, rt.alloc(), &event(0, 0, happened), text.as_str())?;
    }
    Ok(())
}

#[test]
fn names_each_class(rt: HostRuntime) -> Result<(), AllocError> {
    for (class, name) in [
        (Class::Fetch, "fetch"),
        (Class::Alu, "alu"),
        (Class::Muldiv, "muldiv"),
        (Class::Jump, "jump"),
        (Class::Load, "load"),
        (Class::Store, "store"),
        (Class::Atomic, "atomic"),
        (Class::Fence, "fence"),
        (Class::Csr, "csr"),
        (Class::System, "system"),
        (Class::Walk, "walk"),
        (Class::Pulse, "pulse"),
        (Class::Device, "device"),
    ] {
        let text = format!(in rt.alloc();
            "end {name} 0000000080000004 0000000080000008 x31 000000000000000f"
        )?;
        let happened = end(class, 0x8000_0008, 31, 15);
        assert_event(&rt, rt.alloc(), &event(0, 0, happened), text.as_str())?;
    }
    Ok(())
}

#[rattlefmt::skip]
#[test]
fn writes_ends_and_handovers(rt: HostRuntime) -> Result<(), AllocError> {
    let most = u64::MAX;
    for (number, hart, happened, text) in [
        (1, 0, end(Class::Jump, 0x8000_0000, 0, 0), "end jump 0000000080000004 0000000080000000 x0 0000000000000000"),
        (6, 0, end(Class::Trap, 0, 2, 0xf142_a0f3), "end trap 0000000080000004 0000000000000000 0000000000000002 00000000f142a0f3"),
        (most, 255, end(Class::Muldiv, most, most, most), "end muldiv 0000000080000004 ffffffffffffffff x18446744073709551615 ffffffffffffffff"),
        (10, 31, What::Handover(Engine::Pipe), "to p"),
        (10, 31, What::Handover(Engine::Kernel), "to k"),
        (10, 31, What::Handover(Engine::Host), "to h"),
    ] {
        assert_event(&rt, rt.alloc(), &event(number, hart, happened), text)?;
    }
    let mut line = Line::new();
    for (engine, text) in [(Engine::Kernel, "7 0 k to p\n"), (Engine::Host, "7 0 h to p\n")] {
        let leaves = Event { number: 7, hart: HartId(0), engine, what: What::Handover(Engine::Pipe) };
        line.clear();
        put_event(&leaves, &mut Number::of(0), &mut line);
        assert_line(&rt, &line, text);
    }
    Ok(())
}

fn assert_line(rt: &impl Abort, line: &Line, text: &str) {
    assert!(rt; line.bytes() == text.as_bytes(), "not {text}");
}

#[rattlefmt::skip]
#[test]
fn writes_the_lines_around_the_events(rt: HostRuntime) {
    let mut line = Line::new();
    let settings = Settings { harts: 32, ram: 256 << 20, budget: 1 << 32 };
    put_header(&settings, &mut line);
    assert_line(&rt, &line, "trace 1 harts 32 ram 256 budget 4294967296\n");
    let hart = HartId(12);
    for (tail, text) in [
        (TailLine::Stop(Stop::Budget), "stop budget\n"),
        (TailLine::Stop(Stop::Idle), "stop idle\n"),
        (TailLine::Stop(Stop::Off(65_535)), "stop off 65535\n"),
        (TailLine::Hart { hart, ends: 3, mode: Mode::S, pc: 16 }, "hart 12 ends 3 mode s pc 0000000000000010\n"),
        (TailLine::Hart { hart, ends: 0, mode: Mode::U, pc: 0 }, "hart 12 ends 0 mode u pc 0000000000000000\n"),
    ] {
        line.clear();
        put_tail_line(&tail, &mut line);
        assert_line(&rt, &line, text);
    }
}
