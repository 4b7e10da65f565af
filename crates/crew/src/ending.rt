ghost use Rattle.std.specs.Prelude.{◌≡◌, ◌≤◌, ℕ, length, map, vec_len, vec_capacity, Some, None};
ghost use Rattle.access_record.specs.Buses.{Run};
ghost use Rattle.context.specs.Contexts.{Context};
ghost use Rattle.crew.specs.Crews.{AreAllResting};
ghost use Rattle.crew.specs.Played.{IsOver, HasPlayed};

use crate::coordinator::Crew;
use crate::room::{EndRoom, discard_all};
use access_record::Founder;
use context::HartContext;
use mem_banks::{EndMemory, Ended};
use solo::{Parts, take_apart};

// Ends a run: why it stopped, its harts in rising order with their logs, and its memory, which is
// settled.
//
// All harts have come back. Each is over, or waits and the devices don't wake it.
pub(crate) fn conclude(crew: Crew, mut memory: EndMemory, founder: Founder, room: EndRoom) -> Ended
    requires over { (run : Run) × IsOver run crew memory founder × (run.setup.harts ≡ room.harts) }
    ensures { (run : Run) → IsOver run crew memory founder → HasPlayed run.setup crew.plan result }
{
    let Crew {
        plan: _,
        resting,
        workers,
    } = crew;
    discard_all(workers);
    let EndRoom {
        harts: _,
        contexts,
        parts,
    } = room;
    let contexts = all_resting(resting, contexts);
    let Parts {
        harts,
        logs,
        passes,
    } = take_apart(contexts, parts);
    memory.settle(founder, passes);
    let Some(stop) = memory.devices.stop() else {
        unreachable!()
    };
    Ended {
        stop,
        harts,
        logs,
        memory,
    }
}

// The contexts of places that all have one.
fn all_resting(
    mut resting: Vec<Option<HartContext>>,
    mut contexts: Vec<HartContext>,
) -> Vec<HartContext>
    requires all { AreAllResting resting.items }
    requires none { vec_len contexts ≡ 0 }
    requires room { vec_len resting ≤ vec_capacity contexts }
    ensures { map (λ (c : Context). Some c) result.items ≡ resting.items }
{
    while let Some(place) = resting.pop() {
        let Some(context) = place else { unreachable!() };
        contexts.push_reserved(context);
    }
    resting.destroy_empty();
    contexts.reverse();
    contexts
}
