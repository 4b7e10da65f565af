use std::marker::Brand;

/// Names a run: its record, its image and settings, and the console's input. What a lock holds is known
/// by its type alone, so the type has this name.
///
/// The program makes the record first, and then calls one function that is generic over this trait and
/// in which these types live. It passes `Brand`, and the call picks what the name means.
pub trait RunName {
    ghost use Rattle.access_record.specs.Buses.{Run};

    ghost run: { Run };
}

impl RunName for Brand {
    ghost use Rattle.mem_banks.specs.Runs.{some_run};

    ghost run = { some_run };
}
