ghost use Rattle.std.specs.Prelude.{◌≡◌, ◌+◌, ◌*◌, ◌≤◌, ◌++◌, length};
ghost use Rattle.std.specs.List.{flat_map};
ghost use Rattle.tracer.specs.EventText.{hex_digits};
ghost use Rattle.tracer.specs.TailText.{reason_text, stop_text, mode_text, of_hart, state_text, register_text, csr_text, ram_text, tail_line_text};

use crate::put::{Put, put_digits, put_hex, put_number, put_small};
use flex_base::{HartId, Mode, Stop};

/// A line of a trace after its events.
#[derive(Clone, Copy)]
pub enum TailLine {
    /// Why the run ended.
    Stop(Stop),
    /// Where a hart is: how many ends it has made, its mode, and the address of its next
    /// instruction.
    Hart {
        hart: HartId,
        ends: u64,
        mode: Mode,
        pc: u64,
    },
    /// A register that isn't 0.
    Reg {
        hart: HartId,
        number: u64,
        value: u64,
    },
    /// A CSR that isn't 0.
    Csr {
        hart: HartId,
        number: u16,
        value: u64,
    },
    /// The SHA-256 digest of all bytes of RAM.
    Ram([u8; 32]),
    /// The end of the trace.
    Done,
}

/// Puts a line of the tail.
pub fn put_tail_line<P: Put>(line: &TailLine, into: &mut P)
    requires { length (P.text into.old) + 71 ≤ P.room }
    ensures text { P.text into.new ≡ P.text into.old ++ tail_line_text line.now }
    ensures room { length (P.text into.new) ≤ length (P.text into.old) + 71 }
{
    match line {
        TailLine::Stop(stop) => put_stop(*stop, into),
        TailLine::Hart {
            hart,
            ends,
            mode,
            pc,
        } => put_state(*hart, *ends, *mode, *pc, into),
        TailLine::Reg {
            hart,
            number,
            value,
        } => put_register(*hart, *number, *value, into),
        TailLine::Csr {
            hart,
            number,
            value,
        } => put_csr(*hart, *number, *value, into),
        TailLine::Ram(digest) => put_ram(digest, into),
        TailLine::Done => put_done(into),
    }
}

#[tactic(auto, unfolding(crate::specs::TailText::stop_text))]
fn put_stop<P: Put>(stop: Stop, into: &mut P)
    requires { length (P.text into.old) + 30 ≤ P.room }
    ensures text { P.text into.new ≡ P.text into.old ++ stop_text stop }
    ensures room { length (P.text into.new) ≤ length (P.text into.old) + 30 }
{
    into.put(b"stop ");
    put_reason(into, stop);
    into.put(b"\n");
}

fn put_reason<P: Put>(into: &mut P, stop: Stop)
    requires { length (P.text into.old) + 24 ≤ P.room }
    ensures text { P.text into.new ≡ P.text into.old ++ reason_text stop }
    ensures room { length (P.text into.new) ≤ length (P.text into.old) + 24 }
{
    match stop {
        Stop::Budget => into.put(b"budget"),
        Stop::Idle => into.put(b"idle"),
        Stop::Off(code) => {
            into.put(b"off ");
            put_number(into, code as u64);
        }
    }
}

#[tactic(auto, unfolding(crate::specs::TailText::state_text))]
fn put_state<P: Put>(hart: HartId, ends: u64, mode: Mode, pc: u64, into: &mut P)
    requires { length (P.text into.old) + 63 ≤ P.room }
    ensures text { P.text into.new ≡ P.text into.old ++ state_text hart.0 ends mode pc }
    ensures room { length (P.text into.new) ≤ length (P.text into.old) + 63 }
{
    put_hart(into, hart);
    into.put(b" ends ");
    put_number(into, ends);
    into.put(b" mode ");
    put_mode(into, mode);
    into.put(b" pc ");
    put_hex(into, pc);
    into.put(b"\n");
}

#[tactic(auto, unfolding(crate::specs::TailText::register_text))]
fn put_register<P: Put>(hart: HartId, number: u64, value: u64, into: &mut P)
    requires { length (P.text into.old) + 48 ≤ P.room }
    ensures text { P.text into.new ≡ P.text into.old ++ register_text hart.0 number value }
    ensures room { length (P.text into.new) ≤ length (P.text into.old) + 48 }
{
    put_hart(into, hart);
    into.put(b" x");
    put_number(into, number);
    into.put(b" ");
    put_hex(into, value);
    into.put(b"\n");
}

#[tactic(auto, unfolding(crate::specs::TailText::csr_text))]
fn put_csr<P: Put>(hart: HartId, number: u16, value: u64, into: &mut P)
    requires { length (P.text into.old) + 34 ≤ P.room }
    ensures text { P.text into.new ≡ P.text into.old ++ csr_text hart.0 number value }
    ensures room { length (P.text into.new) ≤ length (P.text into.old) + 34 }
{
    put_hart(into, hart);
    into.put(b" csr ");
    put_digits(into, 3, number as u64);
    into.put(b" ");
    put_hex(into, value);
    into.put(b"\n");
}

#[tactic(auto, unfolding(crate::specs::TailText::ram_text))]
fn put_ram<P: Put>(digest: &[u8; 32], into: &mut P)
    requires { length (P.text into.old) + 69 ≤ P.room }
    ensures text { P.text into.new ≡ P.text into.old ++ ram_text digest.now }
    ensures room { length (P.text into.new) ≤ length (P.text into.old) + 69 }
{
    into.put(b"ram ");
    put_bytes(into, digest);
    into.put(b"\n");
}

// Two hexadecimal digits a byte.
fn put_bytes<P: Put>(into: &mut P, bytes: &[u8])
    requires { length (P.text into.old) + 2 * length bytes.now ≤ P.room }
    ensures text { P.text into.new ≡ P.text into.old ++ flat_map (hex_digits 2) bytes.now }
    ensures room { length (P.text into.new) ≡ length (P.text into.old) + 2 * length bytes.now }
{
    for byte in bytes {
        put_digits(into, 2, u64::from(*byte));
    }
}

fn put_done<P: Put>(into: &mut P)
    requires { length (P.text into.old) + 5 ≤ P.room }
    ensures text { P.text into.new ≡ P.text into.old ++ tail_line_text TailLine.Done }
    ensures room { length (P.text into.new) ≤ length (P.text into.old) + 5 }
{
    into.put(b"done\n");
}

fn put_mode<P: Put>(into: &mut P, mode: Mode)
    requires { length (P.text into.old) + 1 ≤ P.room }
    ensures text { P.text into.new ≡ P.text into.old ++ mode_text mode }
    ensures room { length (P.text into.new) ≡ length (P.text into.old) + 1 }
{
    match mode {
        Mode::U => into.put(b"u"),
        Mode::S => into.put(b"s"),
        Mode::M => into.put(b"m"),
    }
}

// What each line of a hart begins with.
fn put_hart<P: Put>(into: &mut P, hart: HartId)
    requires { length (P.text into.old) + 8 ≤ P.room }
    ensures text { P.text into.new ≡ P.text into.old ++ of_hart hart.0 }
    ensures room { length (P.text into.new) ≤ length (P.text into.old) + 8 }
{
    into.put(b"hart ");
    put_small(into, hart.0);
}
