ghost use Rattle.std.specs.Prelude.{◌≡◌, ◌+◌, ◌≤◌, ◌++◌, length};
ghost use Rattle.tracer.specs.EventText.{header_text};

use crate::put::{Put, put_number, put_small};
use flex_base::Settings;

const MEBIBYTE: u64 = 1_048_576;

/// Puts the trace's first line: the settings.
#[tactic(auto, unfolding(crate::specs::EventText::header_text))]
pub fn put_header<P: Put>(settings: &Settings, into: &mut P)
    requires { length (P.text into.old) + 71 ≤ P.room }
    ensures text { P.text into.new ≡ P.text into.old ++ header_text settings.now }
    ensures room { length (P.text into.new) ≤ length (P.text into.old) + 71 }
{
    into.put(b"trace 1 harts ");
    put_small(into, settings.harts);
    into.put(b" ram ");
    put_number(into, settings.ram / MEBIBYTE);
    into.put(b" budget ");
    put_number(into, settings.budget);
    into.put(b"\n");
}
