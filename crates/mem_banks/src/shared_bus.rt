use crate::banks::Banks;
use crate::run_name::RunName;
use access_record::{Bus, Entry, Pass};
use flex_base::{Access, Engine, Gate, Point, Reply};
use std::sync::Wait;

/// The bus of one worker over banks that threads share. Each access is made under the lock of its
/// bank, and so its calls may wait. The gate is told where a hart is.
#[derive(Drop)]
pub struct SharedBus<'a, R: Wait, N: RunName, G: Gate> {
    rt: &'a R,
    banks: &'a Banks<N>,
    gate: &'a G,
}

impl<'a, R: Wait, N: RunName, G: Gate> SharedBus<'a, R, N, G> {
    /// The bus of one worker. That its run is the named one is said by its type, and it has no history,
    /// so there is nothing that a clause could add.
    pub fn new(rt: &'a R, banks: &'a Banks<N>, gate: &'a G) -> SharedBus<'a, R, N, G> {
        SharedBus { rt, banks, gate }
    }
}

impl<'a, R: Wait, N: RunName, G: Gate> Bus for SharedBus<'a, R, N, G> {
    ghost use Rattle.std.specs.Prelude.{None};

    ghost run = { λ _. N.run };

    ghost history = { λ _. None };

    fn access(&mut self, pass: Pass, engine: Engine, acc: Access) -> (Pass, u64, Reply) {
        let hart = pass.hart();
        let made = self.banks.make(self.rt, pass, engine, acc, |bank| {
            self.gate.at(hart, engine, Point::Held(bank))
        });
        self.gate.at(hart, engine, Point::Noted(made.1));
        made
    }

    fn wake(&mut self, pass: Pass, engine: Engine) -> (Pass, Option<(u64, Reply)>) {
        let hart = pass.hart();
        let made = {
            let mut cell = self.banks.devices.lock(self.rt);
            self.gate.at(hart, engine, Point::Held(self.banks.count));
            cell.wake(&self.banks.book, pass, engine)
        };
        if let Some((number, _)) = &made.1 {
            self.gate.at(hart, engine, Point::Noted(*number));
        }
        made
    }

    fn note(&mut self, pass: Pass, entry: Entry) -> (Pass, u64) {
        let hart = pass.hart();
        let engine = entry.engine;
        let (pass, number) = self.banks.book.note_own(pass, entry);
        self.gate.at(hart, engine, Point::Noted(number));
        (pass, number)
    }
}
