ghost use Rattle.std.specs.Prelude.{◌≡◌};
ghost use Rattle.flex_base.specs.Devices.{alarm, sooner, next_alarm};

use crate::registers::has_timer_bit;
use flex_base::{HartDevice, HartStanding};

// The compare value by which time alone wakes the hart.
pub(crate) fn alarm(own: &HartDevice) -> Option<u64>
    ensures { result ≡ alarm own.now }
{
    match own.standing {
        HartStanding::Waits { mie } => {
            if has_timer_bit(mie) && own.mtimecmp < u64::MAX {
                Some(own.mtimecmp)
            } else {
                None
            }
        }
        _ => None,
    }
}

// The earlier of two times, where there are such.
fn sooner(a: Option<u64>, b: Option<u64>) -> Option<u64>
    ensures { result ≡ sooner a b }
{
    match (a, b) {
        (None, _) => b,
        (Some(_), None) => a,
        (Some(first), Some(second)) => Some(if second < first { second } else { first }),
    }
}

// The least compare value by which time alone wakes a hart.
pub(crate) fn next_alarm(harts: &[HartDevice]) -> Option<u64>
    ensures { result ≡ next_alarm harts.now }
{
    harts
        .iter()
        .fold(None, |best, own| sooner(best, alarm(own)))
}
