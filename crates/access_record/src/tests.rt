mod rising;
mod threads;

use super::*;
use flex_base::{Access, Engine, HartId, Reply, What};
use std::process::Abort;
use std::test::*;

#[test]
fn counts_what_is_noted(rt: HostRuntime) -> Result<(), Fail> {
    let mut passes = Vec::with_capacity(rt.alloc(), 1)?;
    let Ok(mut banks) = Vec::with_capacity(rt.alloc(), 1) else {
        passes.destroy_empty();
        panic!(rt; "memory")
    };
    let Ok((book, founder)) = AccessRecord::new(rt.alloc(), 2, 2, 8) else {
        passes.destroy_empty();
        banks.destroy_empty();
        panic!(rt; "memory")
    };
    let (founder, pass) = book.enrol_hart(founder, HartId(1));
    let (founder, bank) = book.enrol_bank(founder, 1);
    let (pass, bank) = book.look(pass, bank);
    let access = Entry {
        engine: Engine::Host,
        what: What::Acc(Access::Time, Reply::with_value(5)),
    };
    let (pass, bank, first) = book.note_both(pass, bank, access);
    let handover = Entry {
        engine: Engine::Host,
        what: What::Handover(Engine::Pipe),
    };
    let (pass, second) = book.note_own(pass, handover);
    let whose = (pass.hart(), bank.bank());
    let pushed = passes.push(pass);
    let Ok(()) = pushed else { unreachable!() };
    let pushed = banks.push(bank);
    let Ok(()) = pushed else { unreachable!() };
    let all = book.gather(founder, passes, banks);
    let (founder, passes, banks) = book.part(all);
    let closed = book.close(founder, passes, banks);
    assert!(rt; first == 0 && second == 1 && closed.count == 2);
    assert!(rt; whose == (HartId(1), 1));
    Ok(())
}
