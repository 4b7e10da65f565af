ghost use Rattle.flex_base.specs.declared.settings.Layout.{Layout};
ghost use Rattle.hart_story.specs.Memory.{closing, access_of, device_closing, IsMemoryWork};
ghost use Rattle.hart_story.specs.Outcome.{EndsAs, IsSoundEnd};
ghost use Rattle.hart_story.specs.Stage.{IsSoundAccess};

use crate::ends::{end_device, end_device_write, end_reserving, end_with, end_without};
use crate::hart::Hart;
use crate::memory::end_conditional;
use crate::memory_work::{MemoryOp, MemoryWork};
use crate::outcome::End;
use crate::width::extended;
use flex_base::{Class, reservation_set};

// The end of an instruction whose access at this physical address was replied with this value.
pub(crate) fn end_by_reply(hart: &Hart, work: &MemoryWork, address: u64, value: u64) -> End
    requires { IsMemoryWork work.now }
    ensures works { EndsAs hart.now (λ a. closing work.now a address value) result }
    ensures sound { (layout : Layout) → IsSoundAccess layout hart.now work.now (access_of work.now address)
        → IsSoundEnd layout hart.now result }
{
    match work.op {
        MemoryOp::Load => {
            let value = extended(work.signed, work.width, value);
            end_with(hart, Class::Load, work.rd, value)
        }
        MemoryOp::Store => end_without(hart, Class::Store),
        MemoryOp::LoadReserved => {
            end_reserving(
                hart,
                Class::Atomic,
                work.rd,
                extended(true, work.width, value),
                Some(reservation_set(address)),
            )
        }
        MemoryOp::StoreConditional => end_conditional(hart, work.rd, value),
        MemoryOp::Modify(_) => {
            let value = extended(true, work.width, value);
            end_with(hart, Class::Atomic, work.rd, value)
        }
    }
}

// The end of a load or a store whose access of a device register was replied with this value.
pub(crate) fn end_by_device(hart: &Hart, work: &MemoryWork, value: u64) -> End
    requires { IsMemoryWork work.now }
    ensures works { EndsAs hart.now (λ a. device_closing work.now a value) result }
    ensures sound { (layout : Layout) → IsSoundEnd layout hart.now result }
{
    match work.op {
        MemoryOp::Load => {
            let value = extended(work.signed, work.width, value);
            end_device(hart, work.rd, value)
        }
        _ => end_device_write(hart),
    }
}
