use super::{Plan, PlanFault, plan_text, read_plan};
use flex_base::{Class, Engine, Text};
use std::alloc::{AllocError, Global};
use std::test::Fail;

// A fault, with texts to be compared.
#[derive(Clone, Copy)]
enum Expected<'a> {
    NotUtf8,
    NotToml,
    UnknownKey(&'a str),
    UnknownEngine(Class, Option<&'a str>),
    CannotRun(Class, Engine),
    BadCount(&'a str, Option<i64>),
}

fn is_text(text: &Text, expected: &str) -> bool {
    text.bytes() == expected.as_bytes()
}

fn is_as(fault: &PlanFault, expected: &Expected) -> bool {
    match (fault, expected) {
        (PlanFault::NotUtf8, Expected::NotUtf8) => true,
        (PlanFault::NotToml, Expected::NotToml) => true,
        (PlanFault::UnknownKey(key), Expected::UnknownKey(k)) => is_text(key, k),
        (PlanFault::UnknownEngine(class, None), Expected::UnknownEngine(c, None)) => class == c,
        (PlanFault::UnknownEngine(class, Some(name)), Expected::UnknownEngine(c, Some(n))) => {
            class == c && is_text(name, n)
        }
        (PlanFault::CannotRun(class, engine), Expected::CannotRun(c, e)) => {
            class == c && engine == e
        }
        (PlanFault::BadCount(key, number), Expected::BadCount(k, n)) => {
            is_text(key, k) && number == n
        }
        _ => false,
    }
}

fn is_refused(alloc: Global, bytes: &[u8], expected: &Expected) -> bool {
    match read_plan(alloc, bytes) {
        Ok(_) => false,
        Err(fault) => is_as(&fault, expected),
    }
}

fn are_refused(alloc: Global, table: &[(&[u8], Expected)]) -> bool {
    table
        .iter()
        .all(|(bytes, expected)| is_refused(alloc, bytes, expected))
}

const FAULTS: [(&[u8], Expected); 20] = [
    (b"\xff", Expected::NotUtf8),
    (b"banks =", Expected::NotToml),
    (b"banks = 2\nbanks = 2", Expected::NotToml),
    (b"\xffbanks =", Expected::NotUtf8),
    (b"bank = 4", Expected::UnknownKey("bank")),
    (b"engine = 'host'", Expected::UnknownKey("engine")),
    (
        b"engine.vector = 'host'",
        Expected::UnknownKey("engine.vector"),
    ),
    (b"engine.Alu = 'host'", Expected::UnknownKey("engine.Alu")),
    (b"hart = {}", Expected::UnknownKey("hart")),
    (
        b"engine.alu = 'fpga'",
        Expected::UnknownEngine(Class::Alu, Some("fpga")),
    ),
    (
        b"engine.alu = 'Pipe'",
        Expected::UnknownEngine(Class::Alu, Some("Pipe")),
    ),
    (b"engine.alu = 1", Expected::UnknownEngine(Class::Alu, None)),
    (
        b"engine.csr = 'pipe'",
        Expected::CannotRun(Class::Csr, Engine::Pipe),
    ),
    (
        b"engine.device = 'kernel'",
        Expected::CannotRun(Class::Device, Engine::Kernel),
    ),
    (b"banks = 3", Expected::BadCount("banks", Some(3))),
    (b"banks = 128", Expected::BadCount("banks", Some(128))),
    (b"pipes = 0", Expected::BadCount("pipes", Some(0))),
    (b"kernels = -1", Expected::BadCount("kernels", Some(-1))),
    (b"kernels = 1.0", Expected::BadCount("kernels", None)),
    (b"version = 2", Expected::BadCount("version", Some(2))),
];

#[test]
fn each_fault_is_named(rt: HostRuntime) {
    assert!(rt; are_refused(rt.alloc(), &FAULTS));
}

// Of two faults the one of the first key in the order of bytes, whatever the order in the file.
const TWO_FAULTS: [(&[u8], Expected); 21] = [
    (
        b"version = 2\nbanks = 3",
        Expected::BadCount("banks", Some(3)),
    ),
    (b"zone = 1\nbanks = 3", Expected::BadCount("banks", Some(3))),
    (b"banks = 3\nbank = 1", Expected::UnknownKey("bank")),
    (
        b"[engine]\nvector = 'host'\n[bank]",
        Expected::UnknownKey("bank"),
    ),
    (
        b"kernels = 9\n[engine]\ncsr = 'pipe'",
        Expected::CannotRun(Class::Csr, Engine::Pipe),
    ),
    (
        b"pipes = 9\nkernels = 9",
        Expected::BadCount("kernels", Some(9)),
    ),
    (
        b"engine = {device = 'pipe', csr = 'pipe'}",
        Expected::CannotRun(Class::Csr, Engine::Pipe),
    ),
    (
        b"engine = {vector = 'host', walk = 'host', trap = 'pipe'}",
        Expected::CannotRun(Class::Trap, Engine::Pipe),
    ),
    (
        b"engine = {jump = 'fpga', csr = 1}",
        Expected::UnknownEngine(Class::Csr, None),
    ),
    (
        b"engine = {alu = 'fpga', csr = 'pipe'}",
        Expected::UnknownEngine(Class::Alu, Some("fpga")),
    ),
    (b"Banks = 4\nbanks = 3", Expected::UnknownKey("Banks")),
    (b"banks = 3\nbanks =", Expected::NotToml),
    (b"bank = 1\nbanks =", Expected::NotToml),
    (b"engine.alu = 1\nbanks =", Expected::NotToml),
    (b"engine.csr = 'pipe'\nbanks =", Expected::NotToml),
    (b"bank = 1 # \xff", Expected::NotUtf8),
    (b"engine.alu = 1 # \xff", Expected::NotUtf8),
    (b"engine.csr = 'pipe' # \xff", Expected::NotUtf8),
    (b"banks = 3 # \xff", Expected::NotUtf8),
    (
        b"engine = {vector = 'host', alu = 1}",
        Expected::UnknownEngine(Class::Alu, None),
    ),
    (
        b"pipes = 9\nengine.alu = 'fpga'",
        Expected::UnknownEngine(Class::Alu, Some("fpga")),
    ),
];

#[test]
fn the_first_of_two_faults_is_named(rt: HostRuntime) {
    assert!(rt; are_refused(rt.alloc(), &TWO_FAULTS));
}

// Whether the file has a plan with these counts of banks, pipes and kernels and these engines.
fn is_read(alloc: Global, bytes: &[u8], counts: [u8; 3], engines: [(Class, Engine); 2]) -> bool {
    let Ok(plan) = read_plan(alloc, bytes) else {
        return false;
    };
    counts == [plan.banks(), plan.pipes(), plan.kernels()]
        && engines
            .iter()
            .all(|(class, engine)| plan.engine_for(*class) == *engine)
}

#[test]
fn every_form_of_toml_is_read(rt: HostRuntime) {
    let alloc = rt.alloc();
    let forms =
        b"# a comment\nbanks = 0x10 # sixteen\n'pipes' = 0b11\n\"kernels\" = +4\nengine . alu = 'kernel'\n";
    let engines = [(Class::Alu, Engine::Kernel), (Class::Jump, Engine::Pipe)];
    assert!(rt; is_read(alloc, forms, [16, 3, 4], engines));
    let inline = b"engine = { device = \"host\", trap = '''host''' }";
    let engines = [(Class::Trap, Engine::Host), (Class::Walk, Engine::Kernel)];
    assert!(rt; is_read(alloc, inline, [4, 2, 1], engines));
}

// The text, with this piece after it so many times, and then the other as many times.
fn repeated(
    alloc: Global,
    text: &str,
    pieces: (&str, &str),
    count: usize,
) -> Result<String, AllocError> {
    let mut whole = String::from_str(alloc, text)?;
    whole.push_str(pieces.0.repeat(alloc, count)?.as_str())?;
    whole.push_str(pieces.1.repeat(alloc, count)?.as_str())?;
    Ok(whole)
}

// The longest file, and the deepest. The reader takes arrays up to 80 deep: such a text is refused by
// its key, a deeper one as text.
#[test]
fn long_and_deep_files_are_read(rt: HostRuntime) -> Result<(), Fail> {
    let alloc = rt.alloc();
    let longest = repeated(alloc, "banks = 8 # ", (".", ""), 65_536 - 12)?;
    assert_eq!(rt; longest.len(), 65_536);
    let engines = [(Class::Alu, Engine::Pipe), (Class::Csr, Engine::Kernel)];
    assert!(rt; is_read(alloc, longest.as_bytes(), [8, 2, 1], engines));
    let deep = repeated(alloc, "a = ", ("[", "]"), 80)?;
    assert!(rt; is_refused(alloc, deep.as_bytes(), &Expected::UnknownKey("a")));
    let deeper = repeated(alloc, "a = ", ("[", "]"), 81)?;
    assert!(rt; is_refused(alloc, deeper.as_bytes(), &Expected::NotToml));
    Ok(())
}

#[test]
fn a_printed_plan_is_read_back(rt: HostRuntime) -> Result<(), Fail> {
    let alloc = rt.alloc();
    let plan = Plan::default_plan();
    assert_eq!(rt; read_plan(alloc, b"")?, plan);
    let text = plan_text(alloc, &plan)?;
    assert_eq!(rt; read_plan(alloc, &text)?, plan);
    Ok(())
}
