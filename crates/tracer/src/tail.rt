ghost use Rattle.std.specs.Prelude.{◌≡◌, ◌<◌, slice_index};
ghost use Rattle.flex_base.specs.State.{State};
ghost use Rattle.hart_story.specs.StandsFor.{StandsFor};
ghost use Rattle.tracer.specs.Tail.{state_line, register_line, csr_line, csr_value};

use crate::tail_text::TailLine;
use flex_base::{HartId, Mode, Stop};
use hart_story::Hart;
use std::alloc::{AllocError, Global};
use std::marker::Model;

// A stop, 32 harts of a line, 31 registers and 20 CSRs each, the digest and the end.
const MOST_LINES: usize = 1_667;

// The numbers of the CSRs that a trace shows, in its order.
const SHOWN_CSRS: [u16; 20] = [
    0x105, 0x106, 0x140, 0x141, 0x142, 0x143, 0x180, 0x300, 0x302, 0x303, 0x304, 0x305, 0x306,
    0x340, 0x341, 0x342, 0x343, 0x344, 0xb00, 0xb02,
];

/// The lines of a trace after its events, with room for those of 32 harts.
#[derive(Drop)]
pub struct Tail {
    lines: Vec<TailLine>,
}

impl Model for Tail {
    ghost use Rattle.std.specs.Prelude.{◌≤◌, List, vec_capacity};
    ghost use Rattle.tracer.specs.declared.tail_text.TailLine.{TailLine};

    ghost Value = { List TailLine };

    ghost view = { λ t. t.lines.items };

    ghost invariant = { λ t. 1667 ≤ vec_capacity t.lines };
}

impl Tail {
    ghost use Rattle.std.specs.Prelude.{◌≡◌, ◌+◌, ◌≤◌, ◌<◌, ℕ, List, [], ◌∷◌, ◌++◌, length, IfOk};
    ghost use Rattle.std.specs.List.{cons_option};
    ghost use Rattle.sha2.specs.Sha256.{sha256};
    ghost use Rattle.flex_base.specs.State.{State};
    ghost use Rattle.hart_story.specs.StandsFor.{StandsFor};
    ghost use Rattle.tracer.specs.Tail.{AllStand, stop_lines, hart_lines, tail_lines};

    /// Takes the memory for the lines. The error is want of it.
    pub fn new(alloc: Global) -> Result<Tail, AllocError>
        ensures { IfOk result (λ tail. tail ≡ []) }
    {
        Ok(Tail {
            lines: Vec::with_capacity(alloc, MOST_LINES)?,
        })
    }

    /// The lines in order.
    pub fn lines(&self) -> &[TailLine]
        ensures { result.now ≡ self.now }
    {
        &self.lines
    }

    /// Makes these the lines of a state: why the run ended, if it has; the harts in the order of
    /// their numbers, at most 32; and the SHA-256 of all bytes of RAM.
    pub fn fill(&mut self, stop: Option<Stop>, harts: &[Hart], digest: [u8; 32])
        requires { length harts.now ≤ 32 }
        ensures { (state : ℕ → State) (ram : List ℕ) → AllStand harts.now state → digest ≡ sha256 ram
            → self.new ≡ tail_lines stop (length harts.now) state ram }
    {
        self.begin(stop);
        for (h, hart) in harts.iter().enumerate() {
            self.push_hart(HartId(h as u8), hart);
        }
        self.push(TailLine::Ram(digest));
        self.push(TailLine::Done);
    }

    fn begin(&mut self, stop: Option<Stop>)
        ensures lines { self.new ≡ stop_lines stop }
        ensures room { length self.new ≤ 1 }
    {
        self.lines.clear();
        match stop {
            Some(stop) => self.push(TailLine::Stop(stop)),
            None => {}
        }
    }

    fn push_hart(&mut self, id: HartId, hart: &Hart)
        requires { length self.old + 52 ≤ 1667 }
        ensures lines { (a : State) → StandsFor hart.now a → self.new ≡ self.old ++ hart_lines id.0 a }
        ensures room { length self.new ≤ length self.old + 52 }
    {
        self.push(state_line(id, hart));
        for number in 1..32 {
            self.push_some(register_line(id, hart, number));
        }
        for number in SHOWN_CSRS {
            self.push_some(csr_line(id, hart, number));
        }
    }

    fn push_some(&mut self, line: Option<TailLine>)
        requires { length self.old < 1667 }
        ensures lines { self.new ≡ self.old ++ cons_option line [] }
        ensures room { length self.new ≤ length self.old + 1 }
    {
        match line {
            Some(line) => self.push(line),
            None => {}
        }
    }

    fn push(&mut self, line: TailLine)
        requires { length self.old < 1667 }
        ensures line { self.new ≡ self.old ++ line ∷ [] }
        ensures room { length self.new ≤ length self.old + 1 }
    {
        self.lines.push(line).unwrap();
    }
}

fn state_line(hart_id: HartId, hart: &Hart) -> TailLine
    ensures { (a : State) → StandsFor hart.now a → result ≡ state_line hart_id.0 a }
{
    TailLine::Hart {
        hart: hart_id,
        ends: hart.regs.ends,
        mode: hart.regs.mode,
        pc: hart.regs.pc,
    }
}

fn register_line(hart_id: HartId, hart: &Hart, number: u8) -> Option<TailLine>
    requires { number < 32 }
    ensures { (a : State) → StandsFor hart.now a → result ≡ register_line hart_id.0 a number }
{
    let value = hart.regs.x[number as usize];
    if value == 0 {
        return None;
    }
    Some(TailLine::Reg {
        hart: hart_id,
        number: number as u64,
        value,
    })
}

fn csr_line(hart_id: HartId, hart: &Hart, number: u16) -> Option<TailLine>
    ensures { (a : State) → StandsFor hart.now a → result ≡ csr_line hart_id.0 a number }
{
    let value = csr_value(hart, number);
    if value == 0 {
        return None;
    }
    Some(TailLine::Csr {
        hart: hart_id,
        number,
        value,
    })
}

// As it is read in mode M. The time isn't shown, so it doesn't matter.
#[tactic(auto, unfolding(crate::specs::Tail::csr_value))]
fn csr_value(hart: &Hart, number: u16) -> u64
    ensures { (a : State) → StandsFor hart.now a → result ≡ csr_value a number }
{
    match hart.csrs.read(number, Mode::M, hart.regs.lines, 0) {
        Ok(value) => value,
        Err(_) => 0,
    }
}
