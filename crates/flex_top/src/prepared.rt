ghost use Rattle.std.specs.Prelude.{◌≡◌, ◌≤◌, ◌*◌, true, map, IfOk};
ghost use Rattle.flex_base.specs.Limits.{is_lawful};
ghost use Rattle.flex_base.specs.Loaded.{image_fits};
ghost use Rattle.flex_top.specs.Answer.{setup_of};
ghost use Rattle.flex_top.specs.Ready.{IsPrepared};
ghost use Rattle.flex_top.specs.Words.{hart_of};

use crate::pieces::Pieces;
use crate::sources::Inputs;
use crate::words::harts_named;
use flex_base::Settings;
use solo::SoloMachine;
use std::alloc::{AllocError, Global};
use tracer::Tail;

/// A run that is ready, with all memory that it needs: the machine, the order as hart numbers, and
/// the room for the trace. Its machine must be spent.
pub(crate) struct Prepared {
    pub(crate) machine: SoloMachine,
    pub(crate) order: Vec<u8>,
    pub(crate) pieces: Pieces,
    pub(crate) tail: Tail,
}

// Makes ready a run of these inputs, in an order of which each character names a hart. The image is
// let go. The error is want of memory.
pub(crate) fn prepare(
    alloc: Global,
    inputs: Inputs,
    settings: &Settings,
    order: &[u8],
) -> Result<Prepared, AllocError>
    requires lawful { is_lawful settings.now ≡ true }
    requires few { settings.now.harts * settings.now.budget ≤ 262144 }
    requires fits { image_fits settings.now.ram inputs.image ≡ true }
    ensures { IfOk result (λ run. IsPrepared inputs.plan (setup_of inputs.image inputs.input.items settings.now) (map hart_of order.now) run) }
{
    let pieces = Pieces::new(alloc)?;
    let tail = Tail::new(alloc)?;
    let order = harts_named(alloc, order)?;
    let Inputs { plan, image, input } = inputs;
    let machine = SoloMachine::prepare(alloc, &image, plan, *settings, input)?;
    Ok(Prepared {
        machine,
        order,
        pieces,
        tail,
    })
}
