// The part of a line that says an access and its reply.

ghost use Rattle.std.specs.Prelude.{◌≡◌, ◌+◌, ◌≤◌, ◌++◌, length};
ghost use Rattle.flex_base.specs.declared.access.Access.TheVariants as acc;
ghost use Rattle.tracer.specs.EventText.{amo_text, fetch_text, pte_text, moved_text, lines_text, access_text};

use crate::put::{Put, put_digits, put_flag, put_hex, put_number, put_span};
use flex_base::{Access, AmoOp, Reply};

#[inline(always)]
pub(crate) fn put_access<P: Put>(into: &mut P, access: &Access, reply: &Reply)
    requires { length (P.text into.old) + 63 ≤ P.room }
    ensures text { P.text into.new ≡ P.text into.old ++ access_text access.now reply.now }
    ensures room { length (P.text into.new) ≤ length (P.text into.old) + 63 }
{
    match access {
        Access::Fetch { address } => put_fetch(into, *address, reply.value),
        Access::Pte { address } => put_pte(into, *address, reply.value),
        Access::Read { address, width } => put_moved(into, b"read ", *address, *width, reply.value),
        Access::Write {
            address,
            width,
            value,
        } => { put_moved(into, b"write ", *address, *width, *value) }
        Access::Lr { address, width } => put_moved(into, b"lr ", *address, *width, reply.value),
        Access::Sc {
            address,
            width,
            value,
        } => put_sc(into, *address, *width, *value, reply),
        Access::Amo {
            op,
            address,
            width,
            value,
        } => { put_amo(into, *op, *address, *width, *value, reply) }
        Access::DevRead { address, width } => {
            put_moved(into, b"devread ", *address, *width, reply.value)
        }
        Access::DevWrite {
            address,
            width,
            value,
        } => { put_moved(into, b"devwrite ", *address, *width, *value) }
        Access::Pulse { tick } => put_pulse(into, *tick, reply),
        Access::Wait { mie } => put_wait(into, *mie, reply),
        Access::Retire => into.put(b"retire"),
        Access::Time => {
            into.put(b"time ");
            put_hex(into, reply.value);
        }
    }
}

#[inline(always)]
fn put_fetch<P: Put>(into: &mut P, address: u64, word: u64)
    requires { length (P.text into.old) + 31 ≤ P.room }
    ensures text { P.text into.new ≡ P.text into.old ++ fetch_text address word }
    ensures room { length (P.text into.new) ≤ length (P.text into.old) + 31 }
{
    into.put(b"fetch ");
    put_hex(into, address);
    into.put(b" ");
    put_digits(into, 8, word);
}

fn put_pte<P: Put>(into: &mut P, address: u64, entry: u64)
    requires { length (P.text into.old) + 37 ≤ P.room }
    ensures text { P.text into.new ≡ P.text into.old ++ pte_text address entry }
    ensures room { length (P.text into.new) ≤ length (P.text into.old) + 37 }
{
    into.put(b"pte ");
    put_hex(into, address);
    into.put(b" ");
    put_hex(into, entry);
}

// A value, and where it was read or written.
#[inline(always)]
fn put_moved<P: Put>(into: &mut P, name: &[u8], address: u64, width: u8, value: u64)
    requires { length (P.text into.old) + length name.now + 37 ≤ P.room }
    ensures text { P.text into.new ≡ P.text into.old ++ moved_text name.now address width value }
    ensures room { length (P.text into.new) ≤ length (P.text into.old) + length name.now + 37 }
{
    into.put(name);
    put_span(into, address, width);
    into.put(b" ");
    put_hex(into, value);
}

fn put_sc<P: Put>(into: &mut P, address: u64, width: u8, value: u64, reply: &Reply)
    requires { length (P.text into.old) + 61 ≤ P.room }
    ensures text { P.text into.new ≡ P.text into.old ++ access_text (acc.Sc address width value) reply.now }
    ensures room { length (P.text into.new) ≤ length (P.text into.old) + 61 }
{
    put_moved(into, b"sc ", address, width, value);
    into.put(b" ");
    put_number(into, reply.value);
}

fn put_amo<P: Put>(into: &mut P, op: AmoOp, address: u64, width: u8, value: u64, reply: &Reply)
    requires { length (P.text into.old) + 63 ≤ P.room }
    ensures text { P.text into.new ≡ P.text into.old ++ access_text (acc.Amo op address width value) reply.now }
    ensures room { length (P.text into.new) ≤ length (P.text into.old) + 63 }
{
    into.put(b"amo ");
    put_operation(into, op);
    put_moved(into, b" ", address, width, value);
    into.put(b" ");
    put_hex(into, reply.value);
}

fn put_pulse<P: Put>(into: &mut P, tick: bool, reply: &Reply)
    requires { length (P.text into.old) + 47 ≤ P.room }
    ensures text { P.text into.new ≡ P.text into.old ++ access_text (acc.Pulse tick) reply.now }
    ensures room { length (P.text into.new) ≤ length (P.text into.old) + 47 }
{
    into.put(b"pulse ");
    put_flag(into, tick);
    put_lines(into, reply);
}

fn put_wait<P: Put>(into: &mut P, mie: u64, reply: &Reply)
    requires { length (P.text into.old) + 61 ≤ P.room }
    ensures text { P.text into.new ≡ P.text into.old ++ access_text (acc.Wait mie) reply.now }
    ensures room { length (P.text into.new) ≤ length (P.text into.old) + 61 }
{
    into.put(b"wait ");
    put_hex(into, mie);
    put_lines(into, reply);
}

// What a pulse or a wait was told: the lines, and whether the wait goes on and the run stops.
fn put_lines<P: Put>(into: &mut P, reply: &Reply)
    requires { length (P.text into.old) + 40 ≤ P.room }
    ensures text { P.text into.new ≡ P.text into.old ++ lines_text reply.now }
    ensures room { length (P.text into.new) ≤ length (P.text into.old) + 40 }
{
    into.put(b" ");
    put_hex(into, reply.lines);
    into.put(b" ");
    put_number(into, reply.value);
    into.put(b" ");
    put_flag(into, reply.stop);
}

fn put_operation<P: Put>(into: &mut P, op: AmoOp)
    requires { length (P.text into.old) + 4 ≤ P.room }
    ensures text { P.text into.new ≡ P.text into.old ++ amo_text op }
    ensures room { length (P.text into.new) ≤ length (P.text into.old) + 4 }
{
    match op {
        AmoOp::Swap => into.put(b"swap"),
        AmoOp::Add => into.put(b"add"),
        AmoOp::Xor => into.put(b"xor"),
        AmoOp::And => into.put(b"and"),
        AmoOp::Or => into.put(b"or"),
        AmoOp::Min => into.put(b"min"),
        AmoOp::Max => into.put(b"max"),
        AmoOp::Minu => into.put(b"minu"),
        AmoOp::Maxu => into.put(b"maxu"),
    }
}
