ghost use Rattle.std.specs.Prelude.{◌≡◌, IfOk};
ghost use Rattle.flex_base.specs.Devices.{devices_start, hart_at, set_hart, wakes, stops, stores, register_at, finishes, puts_msip, puts_mtimecmp, stands_as, runs_if_woken, rests, spends, device_step};

use crate::alarms::next_alarm;
use crate::harts::Harts;
use crate::registers::write_part;
use crate::standing::{all_at_rest, all_spent, is_woken, some_unwoken};
use flex_base::{Access, FINISHER, HartDevice, HartStanding, MSIP, MTIME, MTIMECMP, Stop};
use std::alloc::{AllocError, Global};
use std::marker::Model;

// The low half of a word with which the test finisher ends the run: with code 0, or with the code in
// the high half.
const FINISHER_PASS: u64 = 0x5555;

const FINISHER_FAIL: u64 = 0x3333;

// The time, what is kept of each hart, and the stop.
#[derive(Drop)]
pub(crate) struct State {
    mtime: u64,
    harts: Harts,
    stop: Option<Stop>,
}

impl Model for State {
    ghost use Rattle.flex_base.specs.Devices.{DeviceState};

    ghost Value = { DeviceState };

    ghost view = { λ s. record { mtime = s.mtime; harts = s.harts; stop = s.stop } };
}

impl State {
    pub(crate) fn new(alloc: Global, harts: u8) -> Result<State, AllocError>
        ensures { IfOk result (λ state. state ≡ devices_start harts) }
    {
        let harts = Harts::new(alloc, harts)?;
        Ok(State {
            mtime: 0,
            harts,
            stop: None,
        })
    }

    pub(crate) fn mtime(&self) -> u64
        ensures { result ≡ self.now.mtime }
    {
        self.mtime
    }

    pub(crate) fn stop(&self) -> Option<Stop>
        ensures { result ≡ self.now.stop }
    {
        self.stop
    }

    pub(crate) fn own(&self, hart: u64) -> HartDevice
        ensures { result ≡ hart_at self.now hart }
    {
        self.harts.own(hart)
    }

    pub(crate) fn pulse(&mut self, hart: u64, tick: bool)
        ensures { self.new ≡ device_step self.old hart (Access.Pulse tick) }
    {
        if tick {
            self.mtime = self.mtime.wrapping_add(1);
        }
        self.run_if_woken(hart);
        self.wake();
    }

    pub(crate) fn wait(&mut self, hart: u64, mie: u64)
        ensures { self.new ≡ device_step self.old hart (Access.Wait mie) }
    {
        self.stand(hart, HartStanding::Waits { mie });
        self.wake();
        self.rest();
        self.run_if_woken(hart);
    }

    pub(crate) fn retire(&mut self, hart: u64)
        ensures { self.new ≡ device_step self.old hart Access.Retire }
    {
        self.stand(hart, HartStanding::Spent);
        self.wake();
        self.spend();
        self.rest();
    }

    // Wakes each hart that waits with a line enabled that is on.
    pub(crate) fn wake(&mut self)
        ensures { self.new ≡ wakes self.old }
    {
        self.harts.wake(self.mtime);
    }

    pub(crate) fn write(&mut self, address: u64, width: u8, value: u64)
        ensures { self.new ≡ wakes (stores self.old (register_at address) address width value) }
    {
        self.store(address, width, value);
        self.wake();
    }

    // Writes a device register, in the order of the memory map.
    fn store(&mut self, address: u64, width: u8, value: u64)
        ensures { self.new ≡ stores self.old (register_at address) address width value }
    {
        if FINISHER <= address && address < FINISHER + 4 {
            self.finish(value);
        } else if MSIP <= address && address < MTIMECMP {
            self.put_msip((address - MSIP) / 4, value);
        } else if MTIMECMP <= address && address < MTIME {
            self.put_mtimecmp((address - MTIMECMP) / 8, address, width, value);
        } else if MTIME <= address && address < MTIME + 8 {
            self.mtime = write_part(address, width, self.mtime, value);
        }
    }

    fn finish(&mut self, value: u64)
        ensures { self.new ≡ finishes self.old value }
    {
        if value % 0x1_0000 == FINISHER_PASS {
            self.set_stop(Stop::Off(0));
        } else if value % 0x1_0000 == FINISHER_FAIL {
            self.set_stop(Stop::Off((value / 0x1_0000 % 0x1_0000) as u16));
        }
    }

    fn put_msip(&mut self, hart: u64, value: u64)
        ensures { self.new ≡ puts_msip self.old hart value }
    {
        let own = self.own(hart);
        let msip = value % 2 == 1;
        self.set_own(hart, HartDevice { msip, ..own });
    }

    fn put_mtimecmp(&mut self, hart: u64, address: u64, width: u8, value: u64)
        ensures { self.new ≡ puts_mtimecmp self.old hart address width value }
    {
        let own = self.own(hart);
        let mtimecmp = write_part(address, width, own.mtimecmp, value);
        self.set_own(hart, HartDevice { mtimecmp, ..own });
    }

    fn set_own(&mut self, hart: u64, own: HartDevice)
        ensures { self.new ≡ set_hart self.old hart own }
    {
        self.harts.set(hart, own);
    }

    fn stand(&mut self, hart: u64, standing: HartStanding)
        ensures { self.new ≡ stands_as self.old hart standing }
    {
        let own = self.own(hart);
        self.set_own(hart, HartDevice { standing, ..own });
    }

    fn run_if_woken(&mut self, hart: u64)
        ensures { self.new ≡ runs_if_woken self.old hart }
    {
        if is_woken(self.own(hart).standing) {
            self.stand(hart, HartStanding::Runs);
        }
    }

    // The first stop stays.
    fn set_stop(&mut self, stop: Stop)
        ensures { self.new ≡ stops self.old stop }
    {
        if self.stop.is_none() {
            self.stop = Some(stop);
        }
    }

    // Where no hart can go on and one waits, time jumps to the next alarm. Where there is none, the
    // run is idle.
    fn rest(&mut self)
        ensures { self.new ≡ rests self.old }
    {
        if all_at_rest(self.harts.each()) && some_unwoken(self.harts.each()) {
            match next_alarm(self.harts.each()) {
                Some(time) => {
                    self.mtime = time;
                    self.wake();
                }
                None => self.set_stop(Stop::Idle),
            }
        }
    }

    fn spend(&mut self)
        ensures { self.new ≡ spends self.old }
    {
        if all_spent(self.harts.each()) {
            self.set_stop(Stop::Budget);
        }
    }
}
