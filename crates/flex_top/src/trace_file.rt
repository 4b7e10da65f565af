ghost use Rattle.std.specs.Prelude.{◌≡◌, ◌<◌, ℕ, List, OnOk, OnErr, IsErr, length};
ghost use Rattle.std.specs.List.{flat_map};
ghost use Rattle.flex_base.specs.Outside.{OnlyWrites, Writes};
ghost use Rattle.tracer.specs.EventText.{event_text};
ghost use Rattle.tracer.specs.TailText.{tail_line_text};
ghost use Rattle.tracer.specs.Trace.{whole_text};
ghost use Rattle.flex_top.specs.Written.{Passes, PassesPart, Becomes, BecomesPart};

use crate::pieces::Pieces;
use flex_base::{Failed, Outer, Settings};
use journal::ByNumber;
use tracer::{Number, TailLine, put_header, put_kept, put_tail_line};

/// Makes the file of this name the text of a trace, written in pieces. It takes no memory.
///
/// Where it fails, the file is as it was, or the
/// first bytes of the text.
pub fn write_trace<O: Outer>(
    outer: &mut O,
    name: &str,
    pieces: &mut Pieces,
    settings: &Settings,
    events: ByNumber<'_>,
    tail: &[TailLine],
) -> Result<(), Failed>
    ensures ok { OnOk result (Writes (O.outside outer.old) (O.outside outer.new) name.now
        (Becomes (whole_text settings.now events.entry tail.now))) }
    ensures err { OnErr result (Writes (O.outside outer.old) (O.outside outer.new) name.now
        (BecomesPart (whole_text settings.now events.entry tail.now))) }
    ensures frame { OnlyWrites (O.outside outer.old) (O.outside outer.new) (IsErr result) }
{
    outer.start(name)?;
    pieces.clear();
    put_header(settings, pieces);
    add_events(outer, name, pieces, events)?;
    add_tail(outer, name, pieces, tail)?;
    pieces.flush(outer, name)?;
    Ok(())
}

#[inline(never)]
fn add_events<O: Outer>(
    outer: &mut O,
    name: &str,
    pieces: &mut Pieces,
    events: ByNumber<'_>,
) -> Result<(), Failed>
    requires { length pieces.old < 65536 }
    ensures ok { OnOk result (Passes (O.outside outer.old) (O.outside outer.new) name.now
        pieces.old pieces.new (flat_map event_text events.entry)) }
    ensures err { OnErr result (PassesPart (O.outside outer.old) (O.outside outer.new) name.now
        pieces.old (flat_map event_text events.entry)) }
    ensures room { OnOk result (length pieces.new < 65536) }
    ensures frame { OnlyWrites (O.outside outer.old) (O.outside outer.new) (IsErr result) }
{
    let mut number = Number::of(0);
    for event in events {
        put_kept(&event, &mut number, pieces);
        pieces.write_full(outer, name)?;
    }
    Ok(())
}

fn add_tail<O: Outer>(
    outer: &mut O,
    name: &str,
    pieces: &mut Pieces,
    tail: &[TailLine],
) -> Result<(), Failed>
    requires { length pieces.old < 65536 }
    ensures ok { OnOk result (Passes (O.outside outer.old) (O.outside outer.new) name.now
        pieces.old pieces.new (flat_map tail_line_text tail.now)) }
    ensures err { OnErr result (PassesPart (O.outside outer.old) (O.outside outer.new) name.now
        pieces.old (flat_map tail_line_text tail.now)) }
    ensures frame { OnlyWrites (O.outside outer.old) (O.outside outer.new) (IsErr result) }
{
    for line in tail {
        put_tail_line(line, pieces);
        pieces.write_full(outer, name)?;
    }
    Ok(())
}

#[cfg(test)]
mod tests;
