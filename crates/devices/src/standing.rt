ghost use Rattle.std.specs.Prelude.{◌≡◌};
ghost use Rattle.flex_base.specs.Devices.{wakes_hart, is_woken, is_unwoken, is_spent, is_at_rest, still_waits, all_at_rest, some_unwoken, all_spent};

use crate::registers::is_interrupted;
use flex_base::{HartDevice, HartStanding};

// The hart, woken where it waits and a line is on that it has enabled.
pub(crate) fn wake(mtime: u64, own: HartDevice) -> HartDevice
    ensures { result ≡ wakes_hart mtime own }
{
    match own.standing {
        HartStanding::Waits { mie } if is_interrupted(mtime, &own, mie) => HartDevice {
            standing: HartStanding::Woken,
            ..own
        },
        _ => own,
    }
}

pub(crate) fn is_woken(standing: HartStanding) -> bool
    ensures { result ≡ is_woken standing }
{
    match standing {
        HartStanding::Woken => true,
        _ => false,
    }
}

pub(crate) fn is_unwoken(standing: HartStanding) -> bool
    ensures { result ≡ is_unwoken standing }
{
    match standing {
        HartStanding::Waits { .. } => true,
        _ => false,
    }
}

fn is_spent(standing: HartStanding) -> bool
    ensures { result ≡ is_spent standing }
{
    match standing {
        HartStanding::Spent => true,
        _ => false,
    }
}

// Whether the hart waits, woken or not.
pub(crate) fn still_waits(standing: HartStanding) -> bool
    ensures { result ≡ still_waits standing }
{
    is_unwoken(standing) || is_woken(standing)
}

// Whether the hart does nothing by itself.
fn is_at_rest(standing: HartStanding) -> bool
    ensures { result ≡ is_at_rest standing }
{
    is_unwoken(standing) || is_spent(standing)
}

pub(crate) fn all_at_rest(harts: &[HartDevice]) -> bool
    ensures { result ≡ all_at_rest harts.now }
{
    harts.iter().all(|own| is_at_rest(own.standing))
}

pub(crate) fn some_unwoken(harts: &[HartDevice]) -> bool
    ensures { result ≡ some_unwoken harts.now }
{
    harts.iter().any(|own| is_unwoken(own.standing))
}

pub(crate) fn all_spent(harts: &[HartDevice]) -> bool
    ensures { result ≡ all_spent harts.now }
{
    harts.iter().all(|own| is_spent(own.standing))
}
