ghost use Rattle.std.specs.Prelude.{◌≡◌, ◌*◌, ◌≤◌, true, None, IfOk, vec_len};
ghost use Rattle.flex_base.specs.Limits.{is_lawful};
ghost use Rattle.flex_base.specs.Loaded.{image_fits};

use super::*;
use flex_base::{Engine, Image, RAM_BASE, Settings, Stop};
use journal::HartLog;
use mem_banks::Ended;
use std::alloc::{AllocError, Global};
use std::process::Abort;
use std::test::Fail;
use transplant_plan::{Plan, read_plan};

const ONE: Settings = Settings {
    harts: 1,
    ram: 0x10_0000,
    budget: 64,
};

const TWO: Settings = Settings {
    harts: 2,
    ram: 0x10_0000,
    budget: 1,
};

const FOUR_EACH: Settings = Settings {
    harts: 2,
    ram: 0x10_0000,
    budget: 4,
};

// Turns the power off.
const OFF: [u8; 20] = [
    0x93, 0x02, 0x70, 0x00, // addi x5, x0, 7
    0x37, 0x03, 0x10, 0x00, // lui x6, 0x100
    0xb7, 0x53, 0x00, 0x00, // lui x7, 5
    0x93, 0x83, 0x53, 0x55, // addi x7, x7, 0x555
    0x23, 0x20, 0x73, 0x00, // sw x7, 0(x6)
];

// Hart 0 waits for a software interrupt, which hart 1 sends.
const WAKE: [u8; 32] = [
    0x63, 0x18, 0x05, 0x00, // bne x10, x0, 16
    0x73, 0x50, 0x44, 0x30, // csrrwi x0, mie, 8
    0x73, 0x00, 0x50, 0x10, // wfi
    0x6f, 0x00, 0x00, 0x00, // jal x0, 0
    0xb7, 0x02, 0x00, 0x02, // lui x5, 0x2000
    0x13, 0x03, 0x10, 0x00, // addi x6, x0, 1
    0x23, 0xa0, 0x62, 0x00, // sw x6, 0(x5)
    0x6f, 0x00, 0x00, 0x00, // jal x0, 0
];

// All classes of work in the host.
const HOST: &[u8] = b"[engine]
fetch = 'host'
alu = 'host'
muldiv = 'host'
jump = 'host'
load = 'host'
store = 'host'
atomic = 'host'
fence = 'host'
csr = 'host'
system = 'host'
walk = 'host'
trap = 'host'
pulse = 'host'
";

fn image(alloc: Global, program: &[u8]) -> Result<Image, AllocError> {
    let mut parts = Vec::new(alloc);
    let bytes = Vec::from_slice(alloc, program)?;
    parts.push((RAM_BASE, bytes))?;
    Ok(Image {
        entry: RAM_BASE,
        parts,
    })
}

// Plays an order, and then the rounds.
fn play(
    alloc: Global,
    image: &Image,
    plan: Plan,
    settings: Settings,
    order: &[u8],
) -> Result<Ended, AllocError>
    requires lawful { is_lawful settings ≡ true }
    requires fits { image_fits settings.ram image.now ≡ true }
    requires few { settings.harts * settings.budget ≤ 262144 }
    ensures harts { IfOk result (λ ended. vec_len ended.harts ≡ settings.harts) }
    ensures logs { IfOk result (λ ended. vec_len ended.logs ≡ settings.harts) }
    ensures settled { IfOk result (λ ended. ended.memory.unsettled ≡ None) }
{
    let input = Vec::new(alloc);
    let mut machine = SoloMachine::prepare(alloc, image, plan, settings, input)?;
    machine.play(order);
    machine.play_out();
    Ok(machine.finish())
}

// How many events of a log have the number and the engine that the table says.
fn count_told(log: &HartLog, table: &[(u64, Engine)]) -> usize {
    let mut count = 0;
    for event in log.events() {
        if count < table.len() && (event.number, event.engine) == table[count] {
            count += 1;
        }
    }
    count
}

const BY_DEFAULT: [(u64, Engine); 14] = [
    (0, Engine::Pipe),
    (1, Engine::Pipe),
    (2, Engine::Pipe),
    (3, Engine::Pipe),
    (4, Engine::Pipe),
    (5, Engine::Pipe),
    (6, Engine::Pipe),
    (7, Engine::Pipe),
    (8, Engine::Pipe),
    (9, Engine::Pipe),
    (10, Engine::Host),
    (11, Engine::Host),
    (12, Engine::Host),
    (13, Engine::Kernel),
];

const BY_HOST: [(u64, Engine); 12] = [
    (0, Engine::Host),
    (1, Engine::Host),
    (2, Engine::Host),
    (3, Engine::Host),
    (4, Engine::Host),
    (5, Engine::Host),
    (6, Engine::Host),
    (7, Engine::Host),
    (8, Engine::Host),
    (9, Engine::Host),
    (10, Engine::Host),
    (11, Engine::Host),
];

#[test]
fn a_hart_turns_the_power_off(rt: HostRuntime) -> Result<(), Fail> {
    let image = image(rt.alloc(), OFF.as_slice())?;
    assert!(rt; ONE.lawful() && image.fits(ONE.ram));
    let ended = play(rt.alloc(), &image, Plan::default_plan(), ONE, [].as_slice())?;
    let told = count_told(&ended.logs[0], BY_DEFAULT.as_slice());
    let len = ended.logs[0].len();
    let hart = &ended.harts[0];
    let seen = [hart.regs.ends, hart.regs.pc, hart.regs.get(7)];
    let stop = ended.stop;
    ended.discard();
    assert_eq!(rt; (told, len), (14, 14));
    assert_eq!(rt; seen, [5, RAM_BASE + 20, 0x5555]);
    assert_eq!(rt; stop, Stop::Off(0));
    Ok(())
}

#[test]
fn a_plan_may_leave_all_to_the_host(rt: HostRuntime) -> Result<(), Fail> {
    let image = image(rt.alloc(), OFF.as_slice())?;
    assert!(rt; ONE.lawful() && image.fits(ONE.ram));
    let plan = match read_plan(rt.alloc(), HOST) {
        Ok(plan) => plan,
        Err(_) => panic!(rt; "plan"),
    };
    let ended = play(rt.alloc(), &image, plan, ONE, [].as_slice())?;
    let told = count_told(&ended.logs[0], BY_HOST.as_slice());
    let len = ended.logs[0].len();
    let stop = ended.stop;
    ended.discard();
    assert_eq!(rt; (told, len), (12, 12));
    assert_eq!(rt; stop, Stop::Off(0));
    Ok(())
}

const LATER: [(u64, Engine); 4] = [
    (0, Engine::Pipe),
    (3, Engine::Pipe),
    (6, Engine::Pipe),
    (7, Engine::Kernel),
];

const SOONER: [(u64, Engine); 4] = [
    (1, Engine::Pipe),
    (2, Engine::Pipe),
    (4, Engine::Pipe),
    (5, Engine::Kernel),
];

const FIRST: [(u64, Engine); 4] = [
    (0, Engine::Pipe),
    (1, Engine::Pipe),
    (4, Engine::Pipe),
    (5, Engine::Kernel),
];

const SECOND: [(u64, Engine); 4] = [
    (2, Engine::Pipe),
    (3, Engine::Pipe),
    (6, Engine::Pipe),
    (7, Engine::Kernel),
];

#[test]
fn an_order_names_who_goes_first(rt: HostRuntime) -> Result<(), Fail> {
    let image = image(rt.alloc(), OFF.as_slice())?;
    assert!(rt; TWO.lawful() && image.fits(TWO.ram));
    let plan = Plan::default_plan();
    let order = [1, 7, 0].as_slice();
    let ended = play(rt.alloc(), &image, plan, TWO, order)?;
    let one_ahead = [
        count_told(&ended.logs[0], SOONER.as_slice()),
        count_told(&ended.logs[1], LATER.as_slice()),
    ];
    ended.discard();
    let ended = play(rt.alloc(), &image, plan, TWO, [].as_slice())?;
    let in_turn = [
        count_told(&ended.logs[0], FIRST.as_slice()),
        count_told(&ended.logs[1], SECOND.as_slice()),
    ];
    let stop = ended.stop;
    ended.discard();
    assert_eq!(rt; one_ahead, [4, 4]);
    assert_eq!(rt; in_turn, [4, 4]);
    assert_eq!(rt; stop, Stop::Budget);
    Ok(())
}

// Hart 0 makes the events up to its wait, and is then passed over.
const ZERO_FIRST: [u8; 12] = [0; 12];

const SLEEPER: [(u64, Engine); 4] = [
    (8, Engine::Pipe),
    (9, Engine::Kernel),
    (20, Engine::Kernel),
    (21, Engine::Kernel),
];

const WAKER: [(u64, Engine); 3] = [(17, Engine::Pipe), (18, Engine::Host), (19, Engine::Host)];

#[test]
fn a_hart_waits_until_it_is_woken(rt: HostRuntime) -> Result<(), Fail> {
    let image = image(rt.alloc(), WAKE.as_slice())?;
    assert!(rt; FOUR_EACH.lawful() && image.fits(FOUR_EACH.ram));
    let plan = Plan::default_plan();
    let order = ZERO_FIRST.as_slice();
    let ended = play(rt.alloc(), &image, plan, FOUR_EACH, order)?;
    let told = [
        count_told(&ended.logs[0], SLEEPER.as_slice()),
        count_told(&ended.logs[1], WAKER.as_slice()),
    ];
    let stop = ended.stop;
    ended.discard();
    assert_eq!(rt; told, [4, 3]);
    assert_eq!(rt; stop, Stop::Budget);
    Ok(())
}

// Where the harts are, and what hart 1 has computed.
fn seen(ended: &Ended) -> [u64; 6]
    requires two { vec_len ended.now.harts ≡ 2 }
{
    let first = &ended.harts[0].regs;
    let second = &ended.harts[1].regs;
    [
        first.ends,
        first.pc,
        second.ends,
        second.pc,
        second.get(5),
        second.get(6),
    ]
}

#[test]
fn two_plans_end_alike(rt: HostRuntime) -> Result<(), Fail> {
    let image = image(rt.alloc(), WAKE.as_slice())?;
    assert!(rt; FOUR_EACH.lawful() && image.fits(FOUR_EACH.ram));
    let plan = match read_plan(rt.alloc(), HOST) {
        Ok(plan) => plan,
        Err(_) => panic!(rt; "plan"),
    };
    let order = ZERO_FIRST.as_slice();
    let ended = play(rt.alloc(), &image, plan, FOUR_EACH, order)?;
    let in_host = seen(&ended);
    ended.discard();
    let ended = play(rt.alloc(), &image, Plan::default_plan(), FOUR_EACH, order)?;
    let by_default = seen(&ended);
    ended.discard();
    assert_eq!(rt; in_host, by_default);
    assert_eq!(rt;
        in_host,
        [4, RAM_BASE + 12, 4, RAM_BASE + 28, 0x200_0000, 1]
    );
    Ok(())
}
