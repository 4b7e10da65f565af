// How an instruction ends: what it does to its hart, and what is told of it.
ghost use Rattle.std.specs.Prelude.{◌≡◌, ◌+◌, ◌-◌, ◌^◌, ◌<◌, ◌||◌, ℕ, true, unwrap_or};
ghost use Rattle.flex_base.specs.Csrs.{AreFit, IsCause, csr_write};
ghost use Rattle.flex_base.specs.State.{State};
ghost use Rattle.flex_base.specs.Traps.{mret, sret, count};
ghost use Rattle.flex_base.specs.Word.{is_multiple};
ghost use Rattle.flex_base.specs.Ends.{traps, returns, told_of};
ghost use Rattle.flex_base.specs.Story.{closes_csr, fences_memory, leaves_after};
ghost use Rattle.flex_base.specs.declared.class.Class.TheVariants as class;
ghost use Rattle.flex_base.specs.declared.settings.Layout.{Layout};
ghost use Rattle.hart_state.specs.IsLatest.{IsLatest};
ghost use Rattle.hart_story.specs.Outcome.{outcome_of, end_of, is_end, IsSoundEnd, IsSoundOutcome};
ghost use Rattle.hart_story.specs.Progress.{Commits};

use crate::csr::{CSR_MCYCLE, CSR_MINSTRET, makes_due, turns_satp};
use crate::ends::end_without;
use crate::hart::Hart;
use crate::outcome::{End, Outcome};
use flex_base::{Class, EndPart, Mode};
use hart_state::Kept;

// The results of an instruction that has come to its end become the hart's, with these interrupt
// lines.
pub(crate) fn commit(hart: &mut Hart, lines: u64, outcome: &Outcome) -> EndPart
    requires end { is_end outcome.now ≡ true }
    requires unspent { hart.old.regs.ends < 2 ^ 64 - 1 }
    requires sound { (layout : Layout) × IsSoundOutcome layout hart.old outcome.now }
    ensures commits { (layout : Layout) (budget : ℕ) → IsSoundOutcome layout hart.old outcome.now
        → Commits layout budget hart.old lines (λ a. outcome_of a outcome.now) result hart.new }
    ensures count { hart.new.regs.ends ≡ hart.old.regs.ends + 1 }
{
    match *outcome {
        Outcome::End(end) => commit_end(hart, lines, &end),
        Outcome::Trap { cause, tval } => commit_trap(hart, lines, cause, tval),
        Outcome::WriteCsr {
            number,
            rd,
            old,
            value,
        } => commit_csr(hart, lines, number, rd, old, value),
        Outcome::Mret => commit_mret(hart, lines),
        Outcome::Sret => commit_sret(hart, lines),
        Outcome::FenceMemory => commit_fence(hart, lines),
        _ => unreachable!(),
    }
}

fn commit_end(hart: &mut Hart, lines: u64, end: &End) -> EndPart
    requires unspent { hart.old.regs.ends < 2 ^ 64 - 1 }
    requires register { end.now.rd < 32 }
    ensures commits { (layout : Layout) (budget : ℕ) → IsSoundEnd layout hart.old end.now
        → Commits layout budget hart.old lines (λ a. end_of a end.now) result hart.new }
    ensures count { hart.new.regs.ends ≡ hart.old.regs.ends + 1 }
{
    let pc = hart.regs.pc;
    hart.regs.pc = end.next;
    hart.regs.set(end.rd, end.value);
    hart.regs.reservation = end.reservation;
    hart.csrs.count(true, true);
    close(hart, lines, end.due);
    EndPart {
        class: end.class,
        pc,
        next: end.next,
        first: end.rd as u64,
        second: told_of(end.rd, end.value),
    }
}

// A trap counts a cycle and no instruction.
fn commit_trap(hart: &mut Hart, lines: u64, cause: u64, tval: u64) -> EndPart
    requires unspent { hart.old.regs.ends < 2 ^ 64 - 1 }
    requires cause { IsCause cause }
    ensures commits { (layout : Layout) (budget : ℕ)
        → Commits layout budget hart.old lines (λ a. traps a cause tval) result hart.new }
    ensures count { hart.new.regs.ends ≡ hart.old.regs.ends + 1 }
{
    let pc = hart.regs.pc;
    let (next, mode) = hart.csrs.enter_trap(pc, hart.regs.mode, cause, tval);
    hart.csrs.count(true, false);
    hart.regs.pc = next;
    hart.regs.mode = mode;
    close(hart, lines, false);
    EndPart {
        class: Class::Trap,
        pc,
        next,
        first: cause,
        second: tval,
    }
}

// An instruction that writes a counter doesn't count in it.
fn commit_csr(hart: &mut Hart, lines: u64, number: u16, rd: u8, old: u64, value: u64) -> EndPart
    requires unspent { hart.old.regs.ends < 2 ^ 64 - 1 }
    requires register { rd < 32 }
    ensures commits { (layout : Layout) (budget : ℕ)
        → Commits layout budget hart.old lines (λ a. closes_csr a number rd old value) result hart.new }
    ensures count { hart.new.regs.ends ≡ hart.old.regs.ends + 1 }
{
    let pc = hart.regs.pc;
    let next = pc.wrapping_add(4);
    write_csr(hart, number, value);
    hart.csrs
        .count(number != CSR_MCYCLE, number != CSR_MINSTRET);
    keep_after(&mut hart.kept, number, value);
    hart.regs.pc = next;
    hart.regs.set(rd, old);
    close(hart, lines, makes_due(number));
    EndPart {
        class: Class::Csr,
        pc,
        next,
        first: rd as u64,
        second: told_of(rd, old),
    }
}

fn commit_mret(hart: &mut Hart, lines: u64) -> EndPart
    requires unspent { hart.old.regs.ends < 2 ^ 64 - 1 }
    ensures commits { (layout : Layout) (budget : ℕ)
        → Commits layout budget hart.old lines (λ a. returns a (mret a.csrs)) result hart.new }
    ensures count { hart.new.regs.ends ≡ hart.old.regs.ends + 1 }
{
    let (next, mode) = hart.csrs.mret();
    commit_return(hart, lines, next, mode)
}

fn commit_sret(hart: &mut Hart, lines: u64) -> EndPart
    requires unspent { hart.old.regs.ends < 2 ^ 64 - 1 }
    ensures commits { (layout : Layout) (budget : ℕ)
        → Commits layout budget hart.old lines (λ a. returns a (sret a.csrs)) result hart.new }
    ensures count { hart.new.regs.ends ≡ hart.old.regs.ends + 1 }
{
    let (next, mode) = hart.csrs.sret();
    commit_return(hart, lines, next, mode)
}

// No translation is kept any more, that of the fetch of this instruction included.
fn commit_fence(hart: &mut Hart, lines: u64) -> EndPart
    requires unspent { hart.old.regs.ends < 2 ^ 64 - 1 }
    ensures commits { (layout : Layout) (budget : ℕ)
        → Commits layout budget hart.old lines (λ a. fences_memory a) result hart.new }
    ensures count { hart.new.regs.ends ≡ hart.old.regs.ends + 1 }
{
    hart.kept.clear();
    let end = end_without(hart, Class::System);
    commit_end(hart, lines, &end)
}

// A return ends by which the hart has its CSRs already. A pulse is due after it.
fn commit_return(hart: &mut Hart, lines: u64, next: u64, mode: Mode) -> EndPart
    requires unspent { hart.old.regs.ends < 2 ^ 64 - 1 }
    ensures part { result ≡ record { class = class.System; pc = hart.old.regs.pc; next = next; first = 0; second = 0 } }
    ensures regs { hart.new.regs ≡ record hart.old.regs
        { pc = next; mode = mode; lines = lines; ends = hart.old.regs.ends + 1; due = true } }
    ensures csrs { hart.new.csrs ≡ count hart.old.csrs true true }
    ensures kept { hart.new.kept ≡ hart.old.kept }
    ensures fit { (harts : ℕ) → AreFit harts hart.old.csrs → AreFit harts hart.new.csrs }
{
    let pc = hart.regs.pc;
    hart.csrs.count(true, true);
    hart.regs.pc = next;
    hart.regs.mode = mode;
    close(hart, lines, true);
    EndPart {
        class: Class::System,
        pc,
        next,
        first: 0,
        second: 0,
    }
}

// The write of a CSR instruction. It was tested before that it is legal.
fn write_csr(hart: &mut Hart, number: u16, value: u64)
    ensures csrs { hart.new.csrs
        ≡ unwrap_or (csr_write hart.old.csrs number hart.old.regs.mode value) hart.old.csrs }
    ensures regs { hart.new.regs ≡ hart.old.regs }
    ensures kept { hart.new.kept ≡ hart.old.kept }
    ensures fit { (harts : ℕ) → AreFit harts hart.old.csrs → AreFit harts hart.new.csrs }
{
    match hart.csrs.write(number, hart.regs.mode, value) {
        Ok(()) => {}
        Err(_) => {}
    }
}

// A write of satp that takes effect drops all translations.
fn keep_after(kept: &mut Kept, number: u16, value: u64)
    ensures { (a : State) → IsLatest kept.old a.leaves → IsLatest kept.new (leaves_after a number value) }
{
    if turns_satp(number, value) {
        kept.clear();
    }
}

// One end more is counted. A pulse is due after each 64th, and where the instruction makes one due.
fn close(hart: &mut Hart, lines: u64, due: bool)
    requires { hart.old.regs.ends < 2 ^ 64 - 1 }
    ensures regs { hart.new.regs ≡ record hart.old.regs
        { lines = lines; ends = hart.old.regs.ends + 1; due = due || is_multiple (hart.old.regs.ends + 1) 64 } }
    ensures csrs { hart.new.csrs ≡ hart.old.csrs }
    ensures kept { hart.new.kept ≡ hart.old.kept }
{
    hart.regs.lines = lines;
    hart.regs.ends += 1;
    hart.regs.due = due || hart.regs.ends % 64 == 0;
}

fn told_of(rd: u8, value: u64) -> u64
    ensures { result ≡ told_of rd value }
{
    if rd == 0 { 0 } else { value }
}
