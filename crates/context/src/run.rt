ghost use Rattle.std.specs.Prelude.{◌≡◌};
ghost use Rattle.context.specs.Contexts.{IsOn, IsSame};
ghost use Rattle.context.specs.Runs.{HasAdvanced, HasRun};

use crate::context::HartContext;
use crate::wants::Went;
use access_record::Bus;

impl HartContext {
    /// Makes the hart's next event where the plan gives it to the engine that the hart is in, and
    /// answers whether it did.
    pub fn try_advance<B: Bus>(&mut self, bus: &mut B) -> bool
        requires on { IsOn (B.run bus.old) self.old }
        ensures advanced { HasAdvanced (B.run bus.old) (B.history bus.old) (B.history bus.new) self.old self.new result }
        ensures same { IsSame self.old self.new }
        ensures on { IsOn (B.run bus.old) self.new }
        ensures bus { B.run bus.new ≡ B.run bus.old }
    {
        match self.go(bus) {
            Went::Accessed => true,
            Went::Ended => true,
            Went::Elsewhere(_) => false,
            Went::Parked => false,
            Went::Over => false,
        }
    }

    /// Makes the hart's events, one after another, in the engine that it is in.
    ///
    /// It stops where the plan gives the next event to another engine, where the hart is parked or
    /// over, after so many ends, and where its round has no end left.
    pub fn run<B: Bus>(&mut self, bus: &mut B, most_ends: u64)
        requires on { IsOn (B.run bus.old) self.old }
        ensures ran { HasRun (B.run bus.old) (B.history bus.old) (B.history bus.new) most_ends self.old self.new }
        ensures engine { self.new.engine ≡ self.old.engine }
        ensures same { IsSame self.old self.new }
        ensures on { IsOn (B.run bus.old) self.new }
        ensures bus { B.run bus.new ≡ B.run bus.old }
    {
        let least = self.round_left().saturating_sub(most_ends);
        while least < self.round_left() {
            if !self.try_advance(bus) {
                return;
            }
        }
    }
}
