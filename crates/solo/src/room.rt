ghost use Rattle.std.specs.Prelude.{◌≡◌, ◌<◌, ◌≤◌, ℕ, true, IfOk, map, slice_index_or, vec_len, vec_capacity};
ghost use Rattle.flex_base.specs.declared.settings.Settings.{Settings};
ghost use Rattle.flex_base.specs.Limits.{is_lawful};
ghost use Rattle.context.specs.Contexts.{Context, IsContext};
ghost use Rattle.solo.specs.Room.{are_empty};

use access_record::Pass;
use context::HartContext;
use flex_base::Settings;
use hart_story::Hart;
use journal::HartLog;
use std::alloc::{AllocError, Global};

/// The parts of the contexts at the end of a run, in rising order: the harts, their logs and their
/// passes.
pub struct Parts {
    pub harts: Vec<Hart>,
    pub logs: Vec<HartLog>,
    pub passes: Vec<Pass>,
}

/// An empty log for each hart, with room for 24 events an end and 24 more.
pub fn empty_logs(alloc: Global, settings: &Settings) -> Result<Vec<HartLog>, AllocError>
    requires { is_lawful settings.now ≡ true }
    ensures logs { IfOk result (λ logs. logs.items ≡ are_empty settings.now settings.now.harts) }
    ensures room { IfOk result (λ logs. settings.now.harts ≤ vec_capacity logs) }
{
    let mut logs = Vec::with_capacity(alloc, settings.harts as usize)?;
    for _ in 0..settings.harts {
        logs.push_reserved(HartLog::new(alloc, 24 * settings.budget + 24)?);
    }
    Ok(logs)
}

/// Takes contexts apart, in their order.
pub fn take_apart(mut contexts: Vec<HartContext>, mut parts: Parts) -> Parts
    requires none { (vec_len parts.harts ≡ 0) × (vec_len parts.logs ≡ 0) × (vec_len parts.passes ≡ 0) }
    requires room { (vec_len contexts ≤ vec_capacity parts.harts) × (vec_len contexts ≤ vec_capacity parts.logs)
        × (vec_len contexts ≤ vec_capacity parts.passes) }
    ensures harts { result.harts.items ≡ map (λ (c : Context). c.hart) contexts.items }
    ensures logs { result.logs.items ≡ map (λ (c : Context). c.log) contexts.items }
    ensures contexts { (h : ℕ) (other : Context) → h < vec_len contexts → IsContext (slice_index_or contexts.items h other) }
    ensures passes { result.passes.items ≡ map (λ (c : Context). c.pass) contexts.items }
{
    while let Some(context) = contexts.pop() {
        let (hart, pass, log) = context.dissolve();
        parts.harts.push_reserved(hart);
        parts.logs.push_reserved(log);
        parts.passes.push_reserved(pass);
    }
    contexts.destroy_empty();
    parts.harts.reverse();
    parts.logs.reverse();
    parts.passes.reverse();
    parts
}
