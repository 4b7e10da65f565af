ghost use Rattle.std.specs.Prelude.{◌≡◌, None};

use crate::end_memory::EndMemory;
use flex_base::Stop;
use hart_story::Hart;
use journal::HartLog;

/// A run that has ended: why it stopped, and the harts in rising order with their logs, and the
/// memory. It must be spent.
pub struct Ended {
    pub stop: Stop,
    pub harts: Vec<Hart>,
    pub logs: Vec<HartLog>,
    pub memory: EndMemory,
}

impl Ended {
    /// Gives up what is left of a run whose memory is settled.
    pub fn discard(self)
        requires settled { self.memory.unsettled ≡ None }
    {
        let Ended {
            stop: _,
            harts: _,
            logs: _,
            memory,
        } = self;
        memory.discard();
    }
}
