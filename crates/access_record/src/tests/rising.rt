ghost use Rattle.std.specs.Prelude.{◌≡◌, ◌+◌, ◌<◌, ◌≤◌, length};

use crate::{AccessRecord, BankPass, Entry, Founder, Pass};
use flex_base::{Access, Engine, HartId, Reply, What};
use std::process::Abort;
use std::test::*;

// The numbers of what two harts note in turn.
#[derive(Drop)]
struct Turns {
    // The first hart's access, and then the second's at the same bank.
    access: u64,
    after: u64,
    // A handover of the first hart, after it has learned what the bank's pass has seen.
    handover: u64,
    ghost rising: { (access < after) × (after < handover) },
}

// Two harts note in turn. Nobody else is asked what they note meanwhile, and the numbers rise.
fn note_in_turn(
    book: &AccessRecord,
    first: Pass,
    second: Pass,
    bank: BankPass,
) -> (Pass, Pass, BankPass, Turns)
    requires harts { (first.id ≡ book.now.id) × (second.id ≡ book.now.id) }
    requires bank { bank.id ≡ book.now.id }
    requires room { (length first.log + 2 ≤ book.now.limits.room) × (length second.log < book.now.limits.room) }
    ensures seen { result.0.seen ≡ result.3.handover + 1 }
    ensures left_behind { result.1.seen ≡ result.3.after + 1 }
{
    let entry = Entry {
        engine: Engine::Pipe,
        what: What::Acc(Access::Time, Reply::with_value(0)),
    };
    let (first, bank, access) = book.note_both(first, bank, entry);
    let (second, bank, after) = book.note_both(second, bank, entry);
    let (first, bank) = book.share(first, bank);
    let entry = Entry {
        engine: Engine::Pipe,
        what: What::Handover(Engine::Kernel),
    };
    let (first, handover) = book.note_own(first, entry);
    let turns = Turns {
        access,
        after,
        handover,
    };
    (first, second, bank, turns)
}

#[test]
fn numbers_rise_from_hart_to_hart(rt: HostRuntime) -> Result<(), Fail> {
    let (book, founder) = AccessRecord::new(rt.alloc(), 2, 1, 2)?;
    let (founder, first) = book.enrol_hart(founder, HartId(0));
    let (founder, second) = book.enrol_hart(founder, HartId(1));
    let (founder, bank) = book.enrol_bank(founder, 0);
    let Founder { seat: _ } = founder;
    let (first, second, bank, turns) = note_in_turn(&book, first, second, bank);
    let Pass { hart: _, seat: _ } = first;
    let Pass { hart: _, seat: _ } = second;
    let BankPass { bank: _, seat: _ } = bank;
    assert_eq!(rt; (turns.access, turns.after, turns.handover), (0, 1, 2));
    Ok(())
}
