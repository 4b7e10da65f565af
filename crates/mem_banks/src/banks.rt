ghost use Rattle.std.specs.Prelude.{◌≡◌, ◌≤◌, true, vec_len, vec_capacity, IfErr, Some};
ghost use Rattle.std.specs.Sync.Mutex.{mutex_guard_value};
ghost use Rattle.flex_base.specs.Forms.{HasForm};
ghost use Rattle.access_record.specs.Buses.{ram_banks, place_in, access_entry, Extends};
ghost use Rattle.mem_banks.specs.Kept.{MayMake};
ghost use Rattle.mem_banks.specs.End.{IsMemoryOf};
ghost use Rattle.mem_banks.specs.Locked.{HasBanks};

use crate::bank_cell::BankCell;
use crate::device_cell::DeviceCell;
use crate::end_memory::{EndMemory, Unsettled};
use crate::places::ram_address;
use crate::plain_bus::PlainBus;
use crate::run_name::RunName;
use access_record::{AccessRecord, BankPass, Pass};
use flex_base::{Access, Engine, Reply};
use mem_lines::Lines;
use std::alloc::{AllocError, Global};
use std::marker::PhantomData;
use std::sync::{Mutex, MutexGuard, Wait};

// The empty room of the lines and of the passes. It lies under a lock of its own, since a bank's pass
// may move to another thread and may not be shared.
struct Room<N: RunName> {
    lines: Vec<Lines>,
    passes: Vec<BankPass>,
    of: PhantomData<N>,
    ghost empty: { (vec_len lines ≡ 0) × (vec_len passes ≡ 0) },
    ghost spare: { (ram_banks N.run ≤ vec_capacity lines) × (N.run.book.limits.banks ≤ vec_capacity passes) },
}

/// The banks and the devices of the named run, each under a lock, and its record. Threads share them.
/// They must be spent, by `dissolve`.
pub struct Banks<N: RunName> {
    pub(crate) book: AccessRecord,
    pub(crate) count: u8,
    cells: Vec<Mutex<BankCell<N>>>,
    pub(crate) devices: Mutex<DeviceCell<N>>,
    room: Mutex<Room<N>>,
    pub(crate) ghost named: { book ≡ N.run.book },
    pub(crate) ghost counted: { (count ≡ ram_banks N.run) × (vec_len cells ≡ count) },
    pub(crate) ghost spare: { count ≤ vec_capacity cells },
    pub(crate) ghost run: { HasBanks N.run },
}

/// The empty room of the locks of a run, from which `Banks::renew` makes them again. It must be spent.
pub struct LockRoom<N: RunName> {
    cells: Vec<Mutex<BankCell<N>>>,
    ghost empty: { vec_len cells ≡ 0 },
    ghost spare: { ram_banks N.run ≤ vec_capacity cells },
    ghost run: { HasBanks N.run },
}

impl<N: RunName> LockRoom<N> {
    /// Room for the locks of so many banks, which is how many the named run has. An error is want of
    /// memory.
    pub fn new(alloc: Global, banks: usize) -> Result<LockRoom<N>, AllocError>
        requires run { HasBanks N.run }
        requires banks { banks ≡ ram_banks N.run }
    {
        let cells = Vec::with_capacity(alloc, banks)?;
        Ok(LockRoom { cells })
    }

    /// Gives up the room.
    pub fn discard(self) {
        let LockRoom { cells } = self;
        cells.destroy_empty();
    }
}

impl<N: RunName> Banks<N> {
    /// Puts a lock round each bank and one round the devices of a bus, which is that of the named run.
    /// An error is want of memory, and hands the bus back as it was.
    pub fn new(alloc: Global, plain: PlainBus) -> Result<Banks<N>, PlainBus>
        requires run { plain.run ≡ N.run }
        ensures same { IfErr result (λ p. p ≡ plain) }
    {
        match LockRoom::new(alloc, plain.banks()) {
            Ok(room) => Ok(Banks::renew(plain.dissolve(), room)),
            Err(AllocError) => Err(plain),
        }
    }

    /// Makes the locks again, of a memory of the named run that isn't settled. It takes no memory.
    ///
    /// What is known of locks is what their type keeps: the lines of a bank of the named run lie under
    /// each, or its devices, and they are the replay of their log. A clause could add nothing, since
    /// other threads may use the banks by then.
    pub fn renew(end: EndMemory, room: LockRoom<N>) -> Banks<N>
        requires memory { IsMemoryOf N.run end }
    {
        let EndMemory {
            mut lines,
            devices,
            unsettled,
        } = end;
        let Some(unsettled) = unsettled else {
            unreachable!()
        };
        let Unsettled { book, mut passes } = unsettled;
        let LockRoom { mut cells } = room;
        passes.reverse();
        let Some(pass) = passes.pop() else {
            unreachable!()
        };
        let count = pass.bank();
        let devices = Mutex::new(DeviceCell::new(devices, pass));
        while let Some(bank) = lines.pop() {
            let Some(pass) = passes.pop() else {
                unreachable!()
            };
            cells.push_reserved(Mutex::new(BankCell::new(bank, pass)));
        }
        cells.reverse();
        Banks {
            book,
            count,
            cells,
            devices,
            room: Mutex::new(Room {
                lines,
                passes,
                of: PhantomData,
            }),
        }
    }

    /// Takes the locks away again, and hands back the memory and the room of the locks. It returns only
    /// where all banks stand in rising order, each once.
    pub fn dissolve<R: Wait>(self, rt: &R) -> (EndMemory, LockRoom<N>)
        ensures memory { IsMemoryOf N.run result.0 }
    {
        let Banks {
            book,
            count: _,
            mut cells,
            devices,
            room,
        } = self;
        let Room {
            mut lines,
            mut passes,
            of: _,
        } = room.into_inner();
        cells.reverse();
        while let Some(cell) = cells.pop() {
            let cell = cell.into_inner();
            wait_unless(rt, cell.bank() as usize == lines.len());
            let (bank, pass) = cell.into_parts();
            lines.push_reserved(bank);
            passes.push_reserved(pass);
        }
        let (devices, pass) = devices.into_inner().into_parts();
        passes.push_reserved(pass);
        passes.reverse();
        let memory = EndMemory {
            lines,
            devices,
            unsettled: Some(Unsettled { book, passes }),
        };
        (memory, LockRoom { cells })
    }

    // Makes an access under the lock of its bank, or under that of the devices, whether the hart's story
    // asks it or not. It is told when the lock is held.
    pub(crate) fn make<R: Wait, F: Fn(u8)>(
        &self,
        rt: &R,
        pass: Pass,
        engine: Engine,
        acc: Access,
        held: F,
    ) -> (Pass, u64, Reply)
        requires may { MayMake N.run pass acc }
        requires held { F.IsAlwaysCallable held }
        ensures noted { Extends pass result.0 (access_entry engine acc result.2) (Some (place_in N.run acc)) result.1 }
        ensures form { HasForm acc result.2 }
    {
        match ram_address(&acc) {
            Some(address) => {
                let bank = (address / 64 % self.count as u64) as u8;
                let mut cell = self.hold(rt, bank);
                held(bank);
                cell.access(&self.book, pass, engine, acc)
            }
            None => {
                let mut cell = self.devices.lock(rt);
                held(self.count);
                cell.access(&self.book, pass, engine, acc)
            }
        }
    }

    // Takes the lock of a bank. It is looked for at its own place first, and then from there on, round
    // and round.
    fn hold<R: Wait>(&self, rt: &R, bank: u8) -> MutexGuard<'_, BankCell<N>>
        ensures { (mutex_guard_value result).lines.bank ≡ bank }
    {
        let mut place = bank as usize;
        for _ in rt.forever() {
            if place >= self.cells.len() {
                place = 0;
            }
            let cell = self.cells[place].lock(rt);
            if cell.bank() == bank {
                return cell;
            }
            drop(cell);
            place += 1;
        }
        unreachable!()
    }
}

// Returns only where the test holds.
fn wait_unless<R: Wait>(rt: &R, holds: bool)
    ensures { holds ≡ true }
{
    if !holds {
        for _ in rt.forever() {}
        unreachable!()
    }
}
