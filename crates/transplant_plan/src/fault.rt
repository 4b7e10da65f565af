ghost use Rattle.std.specs.Prelude.{◌≡◌};
ghost use Rattle.transplant_plan.specs.Faults.{fault_number};

use crate::names::{class_name, engine_name};
use flex_base::{Class, Engine, Text};
use std::alloc::AllocError;
use std::fmt;
use thiserror::Error;

/// Why a plan's file is refused. Keys within a table are named with the table, as `engine.alu`.
#[derive(Drop, Error)]
pub enum PlanFault {
    /// The bytes aren't UTF-8.
    #[error("the plan is not UTF-8")]
    NotUtf8,
    /// The text isn't TOML.
    #[error("the plan is not TOML")]
    NotToml,
    /// No such key is known, or `engine` is no table.
    #[error("unknown key `{key}`", key = shown(.0))]
    UnknownKey(Text),
    /// The value of a class names no engine. With the value, where it is a text.
    #[error("no engine is named for {class}", class = class_name(*.0))]
    UnknownEngine(Class, Option<Text>),
    /// The engine can't run the class.
    #[error("{class} can't run in {engine}", class = class_name(*.0), engine = engine_name(*.1))]
    CannotRun(Class, Engine),
    /// A count is no whole number, or not one that is allowed. With the key, and with the value
    /// where it is a whole number.
    #[error("`{key}` has no number that is allowed", key = shown(.0))]
    BadCount(Text, Option<i64>),
    #[error("out of memory")]
    OutOfMemory,
    /// The file has so many bytes, more than 65,536.
    #[error("the plan has {0} bytes")]
    TooLong(u64),
}

impl PlanFault {
    /// The number of the fault among all, in the order above, from 1 on.
    pub fn number(&self) -> u8
        ensures { result ≡ fault_number self.now }
    {
        match self {
            PlanFault::NotUtf8 => 1,
            PlanFault::NotToml => 2,
            PlanFault::UnknownKey(_) => 3,
            PlanFault::UnknownEngine(_, _) => 4,
            PlanFault::CannotRun(_, _) => 5,
            PlanFault::BadCount(_, _) => 6,
            PlanFault::OutOfMemory => 7,
            PlanFault::TooLong(_) => 8,
        }
    }
}

impl From<AllocError> for PlanFault {
    ghost use Rattle.std.specs.Prelude.{◌≡◌};
    ghost use Rattle.transplant_plan.specs.declared.fault.PlanFault.TheVariants.{OutOfMemory};

    ghost from_gives = { λ _ f. f ≡ OutOfMemory };

    fn from(_refused: AllocError) -> PlanFault {
        PlanFault::OutOfMemory
    }
}

fn shown(text: &Text) -> &str {
    std::str::from_utf8(text.bytes()).unwrap_or("")
}

impl fmt::Debug for PlanFault {
    fn fmt<W: fmt::Write>(&self, f: &mut fmt::Formatter<W>) -> fmt::Result {
        fmt::Display::fmt(self, f)
    }
}
