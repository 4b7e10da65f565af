ghost use Rattle.std.specs.Prelude.{◌≡◌, ℕ, true, List};
ghost use Rattle.flex_base.specs.Setup.{Setup};
ghost use Rattle.flex_base.specs.Word.{is_multiple};
ghost use Rattle.flex_base.specs.Following.{Follows};
ghost use Rattle.flex_base.specs.declared.event.Event.{Event};
ghost use Rattle.access_record.specs.declared.entry.LogEntry.{LogEntry};
ghost use Rattle.access_record.specs.Buses.{events_of};
ghost use Rattle.crew.specs.Placing.{AreEventsPlaced};
ghost use Rattle.crew.specs.LogsOfRun.{ArePlacedIn};

/// Each access of a list of events that follows a hart's story stands where its kind may stand,
/// aligned in RAM or at a device register, if only the harts begin at a multiple of 4.
pub fn accesses_stand()
    ensures events { (setup : Setup) (hart : ℕ) (events : List Event) → is_multiple setup.image.entry 4 ≡ true → Follows setup hart events → AreEventsPlaced setup events }
    ensures log { (setup : Setup) (hart : ℕ) (log : List LogEntry) → is_multiple setup.image.entry 4 ≡ true → Follows setup hart (events_of log) → ArePlacedIn setup log }
{}
