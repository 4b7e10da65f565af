ghost use Rattle.std.specs.Prelude.{◌≡◌, map, replicate, slice_set, slice_index_or, IfOk};
ghost use Rattle.flex_base.specs.Devices.{hart_start, wakes_hart};

use crate::standing::{is_unwoken, some_unwoken, wake};
use flex_base::{HartDevice, HartStanding};
use std::alloc::{AllocError, Global};
use std::marker::Model;

// What is kept of each hart.
//
// Waking looks at the harts only where one may wait.
#[derive(Drop)]
pub(crate) struct Harts {
    each: Vec<HartDevice>,
    // False only where no hart waits unwoken.
    may_wait: bool,
}

impl Model for Harts {
    ghost use Rattle.std.specs.Prelude.{◌≡◌, List, false};
    ghost use Rattle.flex_base.specs.Devices.{some_unwoken};
    ghost use Rattle.flex_base.specs.declared.hart_device.HartDevice.{HartDevice};

    ghost Value = { List HartDevice };

    ghost view = { λ h. h.each.items };

    ghost invariant = { λ h. h.may_wait ≡ false → some_unwoken h.each.items ≡ false };
}

// What is kept of a hart at the start.
const HART_START: HartDevice = HartDevice {
    mtimecmp: u64::MAX,
    msip: false,
    standing: HartStanding::Runs,
};

impl Harts {
    pub(crate) fn new(alloc: Global, harts: u8) -> Result<Harts, AllocError>
        ensures { IfOk result (λ made. made ≡ replicate harts hart_start) }
    {
        let each = Vec::from_elem(alloc, HART_START, harts as usize)?;
        Ok(Harts {
            each,
            may_wait: false,
        })
    }

    // What is kept of this hart; of one that there isn't, what it would start with.
    pub(crate) fn own(&self, hart: u64) -> HartDevice
        ensures { result ≡ slice_index_or self.now hart hart_start }
    {
        let each: &[HartDevice] = &self.each;
        let hart = hart as usize;
        if hart < each.len() {
            each[hart]
        } else {
            HART_START
        }
    }

    pub(crate) fn set(&mut self, hart: u64, own: HartDevice)
        ensures { self.new ≡ slice_set self.old hart own }
    {
        let hart = hart as usize;
        if hart < self.each.len() {
            self.each[hart] = own;
            if is_unwoken(own.standing) {
                self.may_wait = true;
            }
        }
    }

    // Wakes each hart that waits with a line enabled that is on.
    pub(crate) fn wake(&mut self, mtime: u64)
        ensures { self.new ≡ map (wakes_hart mtime) self.old }
    {
        if self.may_wait {
            wake_all(mtime, &mut self.each);
            self.may_wait = some_unwoken(&self.each);
        }
    }

    pub(crate) fn each(&self) -> &[HartDevice]
        ensures { result.now ≡ self.now }
    {
        self.each.as_slice()
    }
}

fn wake_all(mtime: u64, harts: &mut [HartDevice])
    ensures { harts.new ≡ map (wakes_hart mtime) harts.old }
{
    for own in harts.iter_mut() {
        *own = wake(mtime, *own);
    }
}
