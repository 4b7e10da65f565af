ghost use Rattle.std.specs.Prelude.{◌≡◌, ◌<◌, ◌≤◌, ◌+◌, ℕ, List, true, [], IfOk, All, length, slice_index_or, vec_len, vec_capacity};
ghost use Rattle.flex_base.specs.Limits.{is_lawful};
ghost use Rattle.access_record.specs.Buses.{ram_banks};
ghost use Rattle.mem_banks.specs.Locked.{HasBanks};
ghost use Rattle.transplant_plan.specs.Shown.{shown};
ghost use Rattle.solo.specs.Room.{are_empty};
ghost use Rattle.crew.specs.Crews.{AreVacant, count_by, engine_of_worker};

use crate::worker::Worker;
use context::HartContext;
use flex_base::{Engine, Settings};
use mem_banks::{LockRoom, RunName};
use solo::{Parts, empty_logs};
use std::alloc::{AllocError, Global};
use transplant_plan::Plan;

// All memory that a run takes, before any hart is there.
pub(crate) struct Room<N: RunName> {
    pub(crate) harts: u8,
    pub(crate) plan: Plan,
    pub(crate) resting: Vec<Option<HartContext>>,
    pub(crate) workers: Vec<Worker>,
    pub(crate) contexts: Vec<HartContext>,
    // The logs are the harts' empty logs.
    pub(crate) parts: Parts,
    pub(crate) locks: LockRoom<N>,
    pub(crate) ghost empty: { (vec_len resting ≡ 0) × (vec_len contexts ≡ 0) × (vec_len parts.harts ≡ 0) × (vec_len parts.passes ≡ 0) },
    pub(crate) ghost spare: { (harts ≤ vec_capacity resting) × (harts ≤ vec_capacity contexts) × (harts ≤ vec_capacity parts.harts)
        × (harts ≤ vec_capacity parts.logs) × (harts ≤ vec_capacity parts.passes) },
    pub(crate) ghost vacant: { AreVacant plan harts workers.items },
}

// Where the parts of the harts go at the end of a run.
pub(crate) struct EndRoom {
    pub(crate) harts: u8,
    pub(crate) contexts: Vec<HartContext>,
    pub(crate) parts: Parts,
    pub(crate) ghost empty: { (vec_len contexts ≡ 0) × (vec_len parts.harts ≡ 0) × (vec_len parts.logs ≡ 0) × (vec_len parts.passes ≡ 0) },
    pub(crate) ghost spare: { (harts ≤ vec_capacity contexts) × (harts ≤ vec_capacity parts.harts)
        × (harts ≤ vec_capacity parts.logs) × (harts ≤ vec_capacity parts.passes) },
}

impl<N: RunName> Room<N> {
    // The memory of a run of these settings under this plan. The error is want of memory.
    pub(crate) fn new(alloc: Global, plan: Plan, settings: &Settings) -> Result<Room<N>, AllocError>
        requires lawful { is_lawful settings.now ≡ true }
        requires run { HasBanks N.run }
        requires banks { (shown plan).banks ≡ ram_banks N.run }
        ensures harts { IfOk result (λ r. r.harts ≡ settings.now.harts) }
        ensures plan { IfOk result (λ r. r.plan ≡ plan) }
        ensures logs { IfOk result (λ r. r.parts.logs.items ≡ are_empty settings.now settings.now.harts) }
    {
        let count = settings.harts as usize;
        let logs = empty_logs(alloc, settings)?;
        let harts = Vec::with_capacity(alloc, count)?;
        let workers = all_workers(alloc, plan, count)?;
        let Ok(resting) = Vec::with_capacity(alloc, count) else {
            discard_all(workers);
            return Err(AllocError);
        };
        let Ok(contexts) = Vec::with_capacity(alloc, count) else {
            discard_all(workers);
            resting.destroy_empty();
            return Err(AllocError);
        };
        let Ok(passes) = Vec::with_capacity(alloc, count) else {
            discard_all(workers);
            resting.destroy_empty();
            contexts.destroy_empty();
            return Err(AllocError);
        };
        let Ok(locks) = LockRoom::new(alloc, plan.banks() as usize) else {
            discard_all(workers);
            resting.destroy_empty();
            contexts.destroy_empty();
            passes.destroy_empty();
            return Err(AllocError);
        };
        let parts = Parts {
            harts,
            logs,
            passes,
        };
        Ok(Room {
            harts: settings.harts,
            plan,
            resting,
            workers,
            contexts,
            parts,
            locks,
        })
    }
}

// The workers of a plan, without harts, each with room for so many. The error is want of memory.
fn all_workers(alloc: Global, plan: Plan, room: usize) -> Result<Vec<Worker>, AllocError>
    ensures { IfOk result (λ workers. AreVacant plan room workers.items) }
{
    let count = plan.pipes() + plan.kernels() + 1;
    let mut workers = Vec::with_capacity(alloc, count as usize)?;
    for number in 0..count {
        let engine = engine_of(plan, number);
        let Ok(worker) = Worker::new(alloc, engine, room) else {
            discard_all(workers);
            return Err(AllocError);
        };
        workers.push_reserved(worker);
    }
    Ok(workers)
}

// The engine of the worker of this number: the pipes stand first, then the kernels, then the host.
fn engine_of(plan: Plan, number: u8) -> Engine
    requires number { number < count_by plan }
    ensures { result ≡ engine_of_worker plan number }
{
    if number < plan.pipes() {
        return Engine::Pipe;
    }
    if number < plan.pipes() + plan.kernels() {
        return Engine::Kernel;
    }
    Engine::Host
}

// Gives up workers that hold no hart.
pub(crate) fn discard_all(mut workers: Vec<Worker>)
    requires none { All (λ w. w.contexts ≡ []) workers.items }
{
    while let Some(worker) = workers.pop() {
        worker.discard();
    }
    workers.destroy_empty();
}
