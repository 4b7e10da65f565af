use crate::found::Found;
use crate::outcome::Outcome;
use crate::stage::Stage;
use flex_base::{Access, Class};

/// How far an instruction has come.
#[derive(Clone, Copy, Debug, PartialEq, Eq)]
pub struct Progress {
    pub(crate) stage: Stage,
    // The interrupt lines that the last pulse told, from then on.
    pub(crate) lines: u64,
    pub(crate) found: Found,
}

// Each hart and each context has one.
const _: () = prove!(size_of::<Progress>() <= 96);

impl Progress {
    ghost use Rattle.std.specs.Prelude.{◌≡◌, true};
    ghost use Rattle.hart_story.specs.Progress.{begun, is_done, is_parked};
    ghost use Rattle.hart_story.specs.Stage.{has_begun, is_end_at};
    ghost use Rattle.hart_story.specs.declared.stage.Stage.TheVariants as Stage;

    /// The beginning of an instruction.
    pub fn begin() -> Progress
        ensures { result ≡ begun }
    {
        Progress {
            stage: Stage::Begun,
            lines: 0,
            found: Found::none(),
        }
    }

    pub(crate) fn has_begun(&self) -> bool
        ensures { result ≡ has_begun self.now.stage }
    {
        !matches!(self.stage, Stage::Begun)
    }

    // The outcome by which the instruction ends.
    pub(crate) fn outcome(&self) -> &Outcome
        requires { is_end_at self.now.stage ≡ true }
        ensures { self.now.stage ≡ Stage.Working result.now }
    {
        match &self.stage {
            Stage::Working(outcome) => outcome,
            _ => unreachable!(),
        }
    }

    /// Whether the hart has nothing left to do: it has spent its budget, or was told to stop.
    pub fn is_over(&self) -> bool
        ensures { result ≡ is_done self.now }
    {
        matches!(self.stage, Stage::Over)
    }

    /// Whether the hart waits for an interrupt, until the devices wake it.
    pub fn is_parked(&self) -> bool
        ensures { result ≡ is_parked self.now }
    {
        matches!(self.stage, Stage::Working(Outcome::Parked))
    }
}

/// What a hart does next.
#[derive(Clone, Copy, Debug, PartialEq, Eq)]
pub enum Need {
    /// It makes this access, of this class, and goes on with the reply.
    Ask(Access, Class),
    /// It ends its instruction, with an end of this class.
    Finish(Class),
    /// It does nothing any more: it has spent its budget, or was told to stop.
    Over,
    /// It waits for an interrupt, and goes on with the reply to a pulse without tick once the devices
    /// have woken it.
    Parked,
}
