ghost use Rattle.std.specs.Prelude.{◌≡◌, ◌+◌, ◌≤◌, ◌<◌, ◌++◌, ◌∷◌, [], length, codes, decimal};
ghost use Rattle.tracer.specs.EventText.{engine_text, class_text, outcome_text, end_text, what_text, event_text};

use crate::access::put_access;
use crate::number::Number;
use crate::put::{Put, put_hex, put_number, put_small};
use flex_base::{Class, EndPart, Engine, Event, HartId, What};
use journal::KeptEvent;

/// Puts the line of an event. Where the number that was put before is the one before, it is quicker.
#[tactic(auto, unfolding(crate::specs::EventText::event_text))]
pub fn put_event<P: Put>(event: &Event, number: &mut Number, into: &mut P)
    requires { length (P.text into.old) + 111 ≤ P.room }
    ensures text { P.text into.new ≡ P.text into.old ++ event_text event.now }
    ensures room { length (P.text into.new) ≤ length (P.text into.old) + 111 }
{
    put_beginning(event.number, event.hart, event.engine, number, into);
    put_what(into, &event.what);
    into.put(b"\n");
}

/// The same of an event of a log, which is read part by part.
#[tactic(auto, unfolding(crate::specs::EventText::event_text))]
#[inline(always)]
pub fn put_kept<P: Put>(event: &KeptEvent<'_>, number: &mut Number, into: &mut P)
    requires { length (P.text into.old) + 111 ≤ P.room }
    ensures text { P.text into.new ≡ P.text into.old ++ event_text event.now }
    ensures room { length (P.text into.new) ≤ length (P.text into.old) + 111 }
{
    put_beginning(event.number(), event.hart(), event.engine(), number, into);
    put_what(into, &event.what());
    into.put(b"\n");
}

// What each event's line begins with: its number, the hart and the engine.
#[inline(always)]
fn put_beginning<P: Put>(
    value: u64,
    hart: HartId,
    engine: Engine,
    number: &mut Number,
    into: &mut P,
)
    requires { length (P.text into.old) + 27 ≤ P.room }
    ensures text { P.text into.new ≡ P.text into.old
        ++ (decimal value ++ codes " " ++ decimal hart.0 ++ codes " " ++ engine_text engine ++ codes " ") }
    ensures room { length (P.text into.new) ≤ length (P.text into.old) + 27 }
{
    number.go_to(value);
    number.put_digits(into);
    put_holder(into, hart, engine);
}

// The hart and the engine that holds it, with a space around each.
#[inline(always)]
fn put_holder<P: Put>(into: &mut P, hart: HartId, engine: Engine)
    requires { length (P.text into.old) + 7 ≤ P.room }
    ensures text { P.text into.new
        ≡ P.text into.old ++ codes " " ++ decimal hart.0 ++ codes " " ++ engine_text engine ++ codes " " }
    ensures room { length (P.text into.new) ≤ length (P.text into.old) + 7 }
{
    if hart.0 < 10 {
        into.put(&[b' ', b'0' + hart.0, b' ', letter_of(engine), b' ']);
    } else {
        put_long_holder(into, hart, engine);
    }
}

#[cold]
fn put_long_holder<P: Put>(into: &mut P, hart: HartId, engine: Engine)
    requires { length (P.text into.old) + 7 ≤ P.room }
    ensures text { P.text into.new
        ≡ P.text into.old ++ codes " " ++ decimal hart.0 ++ codes " " ++ engine_text engine ++ codes " " }
    ensures room { length (P.text into.new) ≤ length (P.text into.old) + 7 }
{
    into.put(b" ");
    put_small(into, hart.0);
    into.put(&[b' ', letter_of(engine), b' ']);
}

#[inline(always)]
fn put_what<P: Put>(into: &mut P, happened: &What)
    requires { length (P.text into.old) + 83 ≤ P.room }
    ensures text { P.text into.new ≡ P.text into.old ++ what_text happened.now }
    ensures room { length (P.text into.new) ≤ length (P.text into.old) + 83 }
{
    match happened {
        What::Acc(access, reply) => put_access(into, access, reply),
        What::End(part) => put_end(into, part),
        What::Handover(to) => {
            into.put(b"to ");
            put_engine(into, *to);
        }
    }
}

#[inline(always)]
fn put_engine<P: Put>(into: &mut P, engine: Engine)
    requires { length (P.text into.old) + 1 ≤ P.room }
    ensures text { P.text into.new ≡ P.text into.old ++ engine_text engine }
    ensures room { length (P.text into.new) ≡ length (P.text into.old) + 1 }
{
    into.put(&[letter_of(engine)]);
}

#[inline(always)]
fn letter_of(engine: Engine) -> u8
    ensures { result ∷ [] ≡ engine_text engine }
{
    match engine {
        Engine::Pipe => b'p',
        Engine::Kernel => b'k',
        Engine::Host => b'h',
    }
}

#[inline(always)]
fn put_end<P: Put>(into: &mut P, part: &EndPart)
    requires { length (P.text into.old) + 83 ≤ P.room }
    ensures text { P.text into.new ≡ P.text into.old ++ end_text part.now }
    ensures room { length (P.text into.new) ≤ length (P.text into.old) + 83 }
{
    put_class(into, part.class);
    put_hex(into, part.pc);
    into.put(b" ");
    put_hex(into, part.next);
    into.put(b" ");
    put_outcome(into, part.class, part.first, part.second);
}

#[inline(always)]
fn put_outcome<P: Put>(into: &mut P, class: Class, first: u64, second: u64)
    requires { length (P.text into.old) + 38 ≤ P.room }
    ensures text { P.text into.new ≡ P.text into.old ++ outcome_text class first second }
    ensures room { length (P.text into.new) ≤ length (P.text into.old) + 38 }
{
    match class {
        Class::Trap => {
            put_hex(into, first);
            into.put(b" ");
        }
        _ => put_register(into, first),
    }
    put_hex(into, second);
}

// A register's number, with the space after it.
#[inline(always)]
fn put_register<P: Put>(into: &mut P, number: u64)
    requires { length (P.text into.old) + 22 ≤ P.room }
    ensures text { P.text into.new ≡ P.text into.old ++ codes "x" ++ decimal number ++ codes " " }
    ensures room { length (P.text into.new) ≤ length (P.text into.old) + 22 }
{
    if number < 10 {
        into.put(&[b'x', b'0' + number as u8, b' ']);
    } else if number < 100 {
        let small = number as u8;
        into.put(&[b'x', b'0' + small / 10, b'0' + small % 10, b' ']);
    } else {
        into.put(b"x");
        put_number(into, number);
        into.put(b" ");
    }
}

// That it is an end, and of which class.
#[inline(always)]
fn put_class<P: Put>(into: &mut P, class: Class)
    requires { length (P.text into.old) + 11 ≤ P.room }
    ensures text { P.text into.new ≡ P.text into.old ++ codes "end " ++ class_text class ++ codes " " }
    ensures room { length (P.text into.new) ≤ length (P.text into.old) + 11 }
{
    match class {
        Class::Fetch => into.put(b"end fetch "),
        Class::Alu => into.put(b"end alu "),
        Class::Muldiv => into.put(b"end muldiv "),
        Class::Jump => into.put(b"end jump "),
        Class::Load => into.put(b"end load "),
        Class::Store => into.put(b"end store "),
        Class::Atomic => into.put(b"end atomic "),
        Class::Fence => into.put(b"end fence "),
        Class::Csr => into.put(b"end csr "),
        Class::System => into.put(b"end system "),
        Class::Walk => into.put(b"end walk "),
        Class::Trap => into.put(b"end trap "),
        Class::Pulse => into.put(b"end pulse "),
        Class::Device => into.put(b"end device "),
    }
}
