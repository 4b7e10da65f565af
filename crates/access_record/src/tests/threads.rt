ghost use Rattle.std.specs.Prelude.{◌≡◌, ◌+◌, ◌<◌, ◌≤◌, [], length, IsSomeAnd};
ghost use Rattle.std.specs.Vec.{vec_len, vec_capacity};
ghost use Rattle.access_record.specs.Rule.{occurrences};
ghost use Rattle.access_record.specs.Passes.{add_hart, add_bank};
ghost use Rattle.std.proofs.Props.{props};

use crate::{AccessRecord, BankPass, Entry, Founder, Pass};
use flex_base::{Access, Engine, HartId, Reply, What};
use std::alloc::Global;
use std::marker::{Brand, PhantomData};
use std::process::Abort;
use std::sync::atomic::{AtomicU64, Ordering};
use std::sync::{Mutex, Wait};
use std::test::*;
use std::thread::{Threads, for_each_mut};

const HARTS: usize = 8;

const BANKS: usize = 4;

const NOTES: u64 = 10_000;

// Names the record that the passes under the locks are of.
trait RecordName {
    ghost use Rattle.access_record.specs.Passes.{RecordIdentity};

    ghost book: { RecordIdentity };
}

impl RecordName for Brand {
    ghost use Rattle.access_record.specs.Passes.{some_record};

    ghost book = { some_record };
}

// A bank's pass, as it lies under a lock.
struct Bank<N: RecordName> {
    pass: Option<BankPass>,
    of: PhantomData<N>,
    ghost held: { IsSomeAnd pass (λ p. p.id ≡ N.book.id) } by { Prim.hlevel props },
}

impl<N: RecordName> Bank<N> {
    fn of(pass: BankPass) -> Mutex<Bank<N>>
        requires { pass.id ≡ N.book.id }
    {
        Mutex::new(Bank {
            pass: Some(pass),
            of: PhantomData,
        })
    }
}

// A hart's pass, and how many accesses it has noted.
struct Worker<N: RecordName> {
    pass: Option<Pass>,
    notes: u64,
    of: PhantomData<N>,
    ghost held: { IsSomeAnd pass (λ p. (p.id ≡ N.book.id) × (length p.log ≡ notes)) } by { Prim.hlevel props },
}

impl<N: RecordName> Worker<N> {
    fn of(pass: Pass) -> Worker<N>
        requires record { pass.id ≡ N.book.id }
        requires log { pass.log ≡ [] }
    {
        Worker {
            pass: Some(pass),
            notes: 0,
            of: PhantomData,
        }
    }

    // Notes an access at this bank, and gives its number.
    fn note(&mut self, book: &AccessRecord, bank: &mut Bank<N>) -> u64
        requires book { book.now ≡ N.book }
        requires count { self.old.notes < 10000 }
        requires room { 10000 < N.book.limits.room }
    {
        let Some(pass) = self.pass.take() else {
            unreachable!()
        };
        let Some(bank_pass) = bank.pass.take() else {
            unreachable!()
        };
        let entry = Entry {
            engine: Engine::Pipe,
            what: What::Acc(Access::Time, Reply::with_value(0)),
        };
        let (pass, bank_pass, number) = book.note_both(pass, bank_pass, entry);
        let left = bank.pass.replace(bank_pass);
        let None = left else { unreachable!() };
        let left = self.pass.replace(pass);
        let None = left else { unreachable!() };
        self.notes += 1;
        number
    }
}

// What the threads share: the record, and the banks under locks.
struct Shared<N: RecordName> {
    book: AccessRecord,
    banks: Vec<Mutex<Bank<N>>>,
    ghost named: { book ≡ N.book },
    ghost room: { 10000 < book.limits.room },
}

// Makes all notes of a worker, at each bank in turn, and counts how often a number is drawn.
fn work<N: RecordName, R: Wait>(
    rt: &R,
    shared: &Shared<N>,
    drawn: &[AtomicU64],
    worker: &mut Worker<N>,
) {
    for turn in 0..NOTES as usize {
        if worker.notes < NOTES
            && let Some(bank) = shared.banks.get(turn % BANKS)
        {
            let mut held = bank.lock(rt);
            let number = worker.note(&shared.book, &mut held);
            if let Some(times) = drawn.get(number as usize) {
                times.fetch_add(1, Ordering::SeqCst);
            }
        }
    }
}

// All workers beside one another.
fn work_all<N: RecordName + Send + Sync, R: Threads + Wait + Sync>(
    rt: &R,
    shared: &Shared<N>,
    drawn: &[AtomicU64],
    workers: &mut [Worker<N>],
) {
    for_each_mut(
        rt,
        workers,
        HARTS,
        &|_, worker: &mut Worker<N>| { work(rt, shared, drawn, worker) },
    );
}

fn add_worker<N: RecordName>(
    book: &AccessRecord,
    founder: Founder,
    workers: &mut Vec<Worker<N>>,
    hart: u8,
) -> Founder
    requires book { book.now ≡ N.book }
    requires founder { founder.id ≡ book.now.id }
    requires hart { (hart < book.now.limits.harts) × (occurrences hart founder.harts ≡ 0) }
    requires room { vec_len workers.old < vec_capacity workers.old }
    ensures founder { result ≡ add_hart founder (record { 0 = hart }) }
    ensures len { vec_len workers.new ≡ vec_len workers.old + 1 }
    ensures room { vec_capacity workers.old ≤ vec_capacity workers.new }
{
    let (founder, pass) = book.enrol_hart(founder, HartId(hart));
    let pushed = workers.push(Worker::of(pass));
    let Ok(()) = pushed else { unreachable!() };
    founder
}

fn add_lock<N: RecordName>(
    book: &AccessRecord,
    founder: Founder,
    banks: &mut Vec<Mutex<Bank<N>>>,
    bank: u8,
) -> Founder
    requires book { book.now ≡ N.book }
    requires founder { founder.id ≡ book.now.id }
    requires bank { (bank < book.now.limits.banks) × (occurrences bank founder.banks ≡ 0) }
    requires room { vec_len banks.old < vec_capacity banks.old }
    ensures founder { result ≡ add_bank founder bank }
    ensures len { vec_len banks.new ≡ vec_len banks.old + 1 }
    ensures room { vec_capacity banks.old ≤ vec_capacity banks.new }
{
    let (founder, pass) = book.enrol_bank(founder, bank);
    let pushed = banks.push(Bank::of(pass));
    let Ok(()) = pushed else { unreachable!() };
    founder
}

// Lets go of what must be spent: nothing can be closed over it any more.
fn discard(founder: Founder) {
    let Founder { seat: _ } = founder;
}

fn discard_bank<N: RecordName>(bank: Mutex<Bank<N>>) {
    let Bank { pass, of: _ } = bank.into_inner();
    let Some(pass) = pass else { unreachable!() };
    let BankPass { bank: _, seat: _ } = pass;
}

// Notes one event more of a worker that has made all its notes, and gives its number.
fn finish<N: RecordName>(book: &AccessRecord, worker: Worker<N>) -> Option<u64>
    requires book { book.now ≡ N.book }
    requires room { 10000 < N.book.limits.room }
{
    let Worker { pass, notes, of: _ } = worker;
    let Some(pass) = pass else { unreachable!() };
    if notes != NOTES {
        let Pass { hart: _, seat: _ } = pass;
        return None;
    }
    let entry = Entry {
        engine: Engine::Pipe,
        what: What::Handover(Engine::Kernel),
    };
    let (pass, number) = book.note_own(pass, entry);
    let Pass { hart: _, seat: _ } = pass;
    Some(number)
}

// Lets all harts note beside one another, and then an event more of each. It gives the last number.
fn note_all<N: RecordName + Send + Sync, R: Threads + Wait + Sync>(
    rt: &R,
    alloc: Global,
    book: AccessRecord,
    founder: Founder,
    drawn: &[AtomicU64],
) -> Option<u64>
    requires name { book ≡ N.book }
    requires founder { (founder.id ≡ book.id) × (founder.harts ≡ []) × (founder.banks ≡ []) }
    requires limits { book.limits ≡ record { harts = 8; banks = 4; room = 10001 } }
{
    let Ok(mut workers) = Vec::<Worker<N>>::with_capacity(alloc, HARTS) else {
        discard(founder);
        return None;
    };
    let Ok(mut banks) = Vec::<Mutex<Bank<N>>>::with_capacity(alloc, BANKS) else {
        workers.destroy_empty();
        discard(founder);
        return None;
    };
    let founder = add_worker(&book, founder, &mut workers, 0);
    let founder = add_worker(&book, founder, &mut workers, 1);
    let founder = add_worker(&book, founder, &mut workers, 2);
    let founder = add_worker(&book, founder, &mut workers, 3);
    let founder = add_worker(&book, founder, &mut workers, 4);
    let founder = add_worker(&book, founder, &mut workers, 5);
    let founder = add_worker(&book, founder, &mut workers, 6);
    let founder = add_worker(&book, founder, &mut workers, 7);
    let founder = add_lock(&book, founder, &mut banks, 0);
    let founder = add_lock(&book, founder, &mut banks, 1);
    let founder = add_lock(&book, founder, &mut banks, 2);
    let founder = add_lock(&book, founder, &mut banks, 3);
    discard(founder);
    let shared = Shared::<N> { book, banks };
    work_all(rt, &shared, drawn, workers.as_mut_slice());
    let Shared { book, mut banks } = shared;
    while let Some(bank) = banks.pop() {
        discard_bank(bank);
    }
    banks.destroy_empty();
    let mut last = None;
    while let Some(worker) = workers.pop() {
        last = finish(&book, worker);
    }
    workers.destroy_empty();
    last
}

#[test]
fn threads_draw_each_number_once(rt: HostRuntime) -> Result<(), Fail> {
    let all = HARTS * NOTES as usize;
    let mut drawn = Vec::with_capacity(rt.alloc(), all)?;
    for _ in 0..all {
        drawn.push(AtomicU64::new(0))?;
    }
    let (book, founder) = AccessRecord::new(rt.alloc(), HARTS as u8, BANKS as u8, NOTES + 1)?;
    let last = note_all::<Brand, _>(&rt, rt.alloc(), book, founder, drawn.as_slice());
    assert_eq!(rt; last, Some((all + HARTS - 1) as u64));
    for times in drawn.as_slice() {
        assert_eq!(rt; times.load(Ordering::SeqCst), 1);
    }
    Ok(())
}
