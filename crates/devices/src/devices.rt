ghost use Rattle.std.specs.Prelude.{◌≡◌, ◌≢◌, ℕ, ◌+◌, ◌<◌, ◌≤◌, ◌^◌, ◌==◌, true, false, if◌then◌else◌, List, [], ◌++◌, length, IfOk, None, Some};
ghost use Rattle.flex_base.specs.Word.{wrap};
ghost use Rattle.flex_base.specs.Limits.{is_lawful};
ghost use Rattle.flex_base.specs.Place.{UART};
ghost use Rattle.flex_base.specs.Forms.{IsPlaced, HasForm, TellsLines};
ghost use Rattle.flex_base.specs.FlatMemory.{Done};
ghost use Rattle.flex_base.specs.Unsplit.{with_access};
ghost use Rattle.flex_base.specs.Devices.{hart_at, register_at, register_value, next_alarm, device_step, devices, woken, device_stop, sent_bytes, tells, reply_in, reply_after};
ghost use Rattle.flex_base.specs.DeviceLaws.{AreBelow, IsLive, KeepsStop, is_settled, IsIdle, IsNextAlarm, MovesTime, AreSteady, ticks};
ghost use Rattle.flex_base.specs.declared.hart_device.HartDevice.{HartDevice};
ghost use Rattle.devices.specs.View.{IsReplay, IsSame, HasRoom, has_room, room_for, left_after, kept_after};

use crate::console::Console;
use crate::registers::{lines, read_part};
use crate::standing::{is_woken, still_waits};
use crate::state::State;
use flex_base::{Access, HartId, MSIP, MTIME, MTIMECMP, Reply, Settings, Stop, UART, UART_LSR};
use std::alloc::{AllocError, Global};
use std::marker::Model;

// The most console bytes that room is taken for.
const MOST_KEPT: u64 = 262_144;

/// The timer, the software interrupts, the console and the test finisher, and how each hart stands.
///
/// An access is answered in a time that doesn't depend on how many there were, and on the number of
/// harts only where some wait.
#[derive(Drop)]
pub struct Devices {
    state: State,
    console: Console,
}

impl Model for Devices {
    ghost use Rattle.devices.specs.View.{DevicesView};

    ghost Value = { DevicesView };

    ghost view = { λ d. record { state = d.state; console = d.console } };
}

impl Devices {
    /// The devices of so many harts, before any access, with this input for the console.
    ///
    /// The settings are lawful. There is room for as many console bytes as the harts can send within
    /// their budget, and for 262,144 at most. An error means that memory ran out.
    pub fn new(alloc: Global, settings: &Settings, input: Vec<u8>) -> Result<Devices, AllocError>
        requires lawful { is_lawful settings.now ≡ true }
        ensures replay { IfOk result (λ made. IsReplay settings.now.harts input.items [] made) }
        ensures harts { IfOk result (λ made. length made.state.harts ≡ settings.now.harts) }
        ensures room { IfOk result (λ made. made.console.room ≡ room_for settings.now.harts settings.now.budget) }
        ensures keeps { IfOk result (λ made. made.console.keeps ≡ true) }
    {
        let state = State::new(alloc, settings.harts)?;
        let console = Console::new(alloc, input, room(settings))?;
        Ok(Devices { state, console })
    }

    /// Makes an access of the devices by a hart, and replies.
    ///
    /// A byte that is sent to the console and kept needs room. A pulse of a hart that waits and
    /// isn't woken leaves it waiting, and replies 1. A register of a hart that there isn't reads as
    /// at the start, and a write of it changes nothing.
    pub fn act(&mut self, hart: HartId, acc: &Access) -> Reply
        requires room { HasRoom self.old acc.now }

        // The reply, and what the devices stand for then.
        ensures reply { (harts : ℕ) (input : List ℕ) (made : List Done) → IsReplay harts input made self.old
            → result ≡ reply_after harts input made hart.0 acc.now }
        ensures replay { (harts : ℕ) (input : List ℕ) (made : List Done) → IsReplay harts input made self.old
            → IsReplay harts input (with_access made hart.0 acc.now result) self.new }
        ensures form { (harts ram : ℕ) → IsPlaced harts ram acc.now → HasForm acc.now result }
        ensures same { IsSame self.old self.new }
        ensures kept { self.new.console.sent ≡ kept_after self.old acc.now }

        // Whatever was before: no hart waits for a line that is on, the first stop stays, and time
        // goes back only where it is written or comes to its end.
        ensures settled { is_settled self.new.state ≡ true }
        ensures first { KeepsStop self.old.state.stop self.new.state.stop }
        ensures live { hart.0 < length self.old.state.harts → IsLive self.old.state → IsLive self.new.state }
        ensures idle { self.old.state.stop ≡ None → self.new.state.stop ≡ Some Stop.Idle → IsIdle self.new.state }
        ensures time { MovesTime acc.now self.old.state.mtime self.new.state.mtime }

        // What time jumps to, and that it else goes on by its ticks.
        ensures alarm { (each : List HartDevice) (time : ℕ) → next_alarm each ≡ Some time → IsNextAlarm each time }
        ensures ticks { (harts : ℕ) (made more : List Done) → AreSteady more
            → wrap (devices harts (made ++ more)).mtime ≡ wrap ((devices harts made).mtime + ticks more) }
    {
        self.make(hart.0 as u64, acc)
    }

    /// Whether one more byte may be sent to the console.
    pub fn has_room(&self) -> bool
        ensures { result ≡ has_room self.now.console }
    {
        self.console.has_room()
    }

    /// Whether the hart waits and may go on by a pulse.
    pub fn woken(&self, hart: HartId) -> bool
        ensures woken { (harts : ℕ) (input : List ℕ) (made : List Done) → IsReplay harts input made self.now
            → result ≡ woken harts made hart.0 }
    {
        is_woken(self.state.own(hart.0 as u64).standing)
    }

    /// Why the run stops, once a stop stands. While none stands some hart runs or is woken, and the
    /// first stop stays.
    #[tactic(auto, using(flex_base::proofs::DeviceLaws::stop_stays))]
    pub fn stop(&self) -> Option<Stop>
        ensures stop { (harts : ℕ) (input : List ℕ) (made : List Done) → IsReplay harts input made self.now
            → result ≡ device_stop harts made }
        ensures live { (harts : ℕ) (input : List ℕ) (made : List Done) → IsReplay harts input made self.now
            → 0 < harts → AreBelow harts made → IsLive self.now.state }
        ensures stays { (harts : ℕ) (made more : List Done) (first : Stop) → device_stop harts made ≡ Some first
            → device_stop harts (made ++ more) ≡ Some first }
    {
        self.state.stop()
    }

    /// The bytes that were sent and kept.
    pub fn console(&self) -> &[u8]
        ensures kept { result.now ≡ self.now.console.sent }
        ensures sent { (harts : ℕ) (input : List ℕ) (made : List Done) → IsReplay harts input made self.now
            → self.now.console.keeps ≡ true → result.now ≡ sent_bytes made }
    {
        self.console.sent()
    }

    /// Keeps no more bytes of those that are sent. The bytes of before stay.
    pub fn keep_none(&mut self)
        ensures state { self.new.state ≡ self.old.state }
        ensures left { self.new.console.left ≡ self.old.console.left }
        ensures console { self.new.console.sent ≡ self.old.console.sent }
        ensures room { self.new.console.room ≡ self.old.console.room }
        ensures keeps { self.new.console.keeps ≡ false }
    {
        self.console.keep_none();
    }

    fn make(&mut self, hart: u64, acc: &Access) -> Reply
        requires room { HasRoom self.old acc.now }
        ensures reply { result ≡ reply_in self.old.state self.old.console.left hart acc.now }
        ensures state { self.new.state ≡ device_step self.old.state hart acc.now }
        ensures left { self.new.console.left ≡ left_after self.old acc.now }
        ensures kept { self.new.console.sent ≡ kept_after self.old acc.now }
        ensures form { (harts ram : ℕ) → IsPlaced harts ram acc.now → HasForm acc.now result }
        ensures same { IsSame self.old self.new }
    {
        match *acc {
            Access::Pulse { tick } => {
                self.state.pulse(hart, tick);
                self.tell(hart)
            }
            Access::Wait { mie } => {
                self.state.wait(hart, mie);
                self.tell(hart)
            }
            Access::Retire => {
                self.state.retire(hart);
                Reply::with_value(0)
            }
            Access::DevRead { address, width } => {
                let value = self.read(address, width);
                self.state.wake();
                Reply::with_value(value)
            }
            Access::DevWrite {
                address,
                width,
                value,
            } => {
                self.send(address, value);
                self.state.write(address, width, value);
                Reply::with_value(0)
            }
            Access::Time => {
                self.state.wake();
                Reply::with_value(self.state.mtime())
            }
            _ => {
                self.state.wake();
                Reply::with_value(0)
            }
        }
    }

    // What a pulse or a wait is answered.
    fn tell(&self, hart: u64) -> Reply
        ensures reply { result ≡ tells self.now.state hart }
        ensures form { TellsLines result }
    {
        let own = self.state.own(hart);
        Reply {
            value: if still_waits(own.standing) { 1 } else { 0 },
            lines: lines(self.state.mtime(), &own),
            stop: self.state.stop().is_some(),
        }
    }

    // Reads a device register.
    fn read(&mut self, address: u64, width: u8) -> u64
        ensures value { result ≡ register_value self.old.state self.old.console.left (register_at address) address width }
        ensures narrow { (width == 8) ≡ false → result < 2 ^ 32 }
        ensures byte { UART ≤ address → result < 2 ^ 8 }
        ensures state { self.new.state ≡ self.old.state }
        ensures left { self.new.console.left ≡ left_after self.old (Access.DevRead address width) }
        ensures kept { self.new.console.sent ≡ self.old.console.sent }
        ensures same { IsSame self.old self.new }
    {
        if address == UART {
            self.console.take() as u64
        } else {
            self.value(address, width)
        }
    }

    // What stands in a register whose reading changes nothing, in the order of the memory map.
    fn value(&self, address: u64, width: u8) -> u64
        requires { address ≢ UART }
        ensures value { result ≡ register_value self.now.state self.now.console.left (register_at address) address width }
        ensures narrow { (width == 8) ≡ false → result < 2 ^ 32 }
        ensures byte { UART ≤ address → result < 2 ^ 8 }
    {
        if MSIP <= address && address < MTIMECMP {
            self.msip((address - MSIP) / 4)
        } else if MTIMECMP <= address && address < MTIME {
            let own = self.state.own((address - MTIMECMP) / 8);
            read_part(address, width, own.mtimecmp)
        } else if MTIME <= address && address < MTIME + 8 {
            read_part(address, width, self.state.mtime())
        } else if address == UART_LSR {
            self.console.line_status()
        } else {
            0
        }
    }

    fn msip(&self, hart: u64) -> u64
        ensures value { result ≡ (if (hart_at self.now.state hart).msip then 1 else 0) }
        ensures bit { result < 2 }
    {
        if self.state.own(hart).msip { 1 } else { 0 }
    }

    // Sends the byte of a write of the console's register.
    fn send(&mut self, address: u64, value: u64)
        requires room { address ≡ UART → has_room self.old.console ≡ true }
        ensures state { self.new.state ≡ self.old.state }
        ensures left { self.new.console.left ≡ self.old.console.left }
        ensures kept { (width : ℕ) → self.new.console.sent ≡ kept_after self.old (Access.DevWrite address width value) }
        ensures same { IsSame self.old self.new }
    {
        if address == UART {
            self.console.send((value % 0x100) as u8);
        }
    }
}

// How many console bytes there is room for.
fn room(settings: &Settings) -> usize
    requires lawful { is_lawful settings.now ≡ true }
    ensures { result ≡ room_for settings.now.harts settings.now.budget }
{
    let most = settings.harts as u64 * settings.budget;
    most.min(MOST_KEPT) as usize
}
