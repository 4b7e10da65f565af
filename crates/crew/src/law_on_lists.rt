ghost use Rattle.std.specs.Prelude.{◌≡◌, ℕ, List};
ghost use Rattle.access_record.specs.declared.entry.LogEntry.{LogEntry};
ghost use Rattle.access_record.specs.declared.limits.Limits.{Limits};
ghost use Rattle.access_record.specs.Logs.{IsRecord, of_hart, on_bank};
ghost use Rattle.access_record.specs.Buses.{Run};
ghost use Rattle.transplant_plan.specs.Split.{Plan};
ghost use Rattle.crew.specs.Merging.{entries_of, merged};
ghost use Rattle.crew.specs.LogsOfRun.{AreLogsOfRun, IsRunOf, journal_of};

/// Of the merged entries those that name a hart are its log, and those that name a bank are the
/// bank's.
pub fn merged_parts()
    ensures hart { (limits : Limits) (n : ℕ) (harts banks : ℕ → List LogEntry) (hart : ℕ) → IsRecord limits n harts banks → of_hart hart (merged n (entries_of limits.harts harts)) ≡ harts hart }
    ensures bank { (limits : Limits) (n : ℕ) (harts banks : ℕ → List LogEntry) (bank : ℕ) → IsRecord limits n harts banks → on_bank bank (merged n (entries_of limits.harts harts)) ≡ banks bank }
{}

/// Logs that agree by the rule of the record, each of which is right by itself, are a run: merged
/// by number they are a legal journal, it obeys the plan, and where it leads is where each log
/// leads.
pub fn logs_make_run()
    ensures { (run : Run) (plan : Plan) (n : ℕ) (harts banks : ℕ → List LogEntry) → AreLogsOfRun run plan n harts banks → IsRunOf run plan n harts banks (journal_of run n harts) }
{}
