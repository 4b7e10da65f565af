// The ends of instructions.
ghost use Rattle.std.specs.Prelude.{◌<◌};
ghost use Rattle.flex_base.specs.Ends.{computes, passes, computes_device, passes_device};
ghost use Rattle.flex_base.specs.declared.settings.Layout.{Layout};
ghost use Rattle.hart_story.specs.Outcome.{EndsAs, IsSoundEnd, KeepsReservation};

use crate::hart::Hart;
use crate::outcome::End;
use flex_base::Class;

// The hart goes on at the next instruction, with a value for a register.
pub(crate) fn end_with(hart: &Hart, class: Class, rd: u8, value: u64) -> End
    requires { rd < 32 }
    ensures works { EndsAs hart.now (λ a. computes a class rd value) result }
    ensures sound { (layout : Layout) → IsSoundEnd layout hart.now result }
{
    end_reserving(hart, class, rd, value, hart.regs.reservation)
}

// The hart goes on at the next instruction, and no register is written.
pub(crate) fn end_without(hart: &Hart, class: Class) -> End
    ensures works { EndsAs hart.now (λ a. passes a class) result }
    ensures sound { (layout : Layout) → IsSoundEnd layout hart.now result }
{
    end_with(hart, class, 0, 0)
}

// The hart goes on at the next instruction, with a value for a register and this reservation.
pub(crate) fn end_reserving(
    hart: &Hart,
    class: Class,
    rd: u8,
    value: u64,
    reservation: Option<u64>,
) -> End
    requires { rd < 32 }
    ensures works { EndsAs hart.now (λ a. computes (record a { reservation = reservation }) class rd value) result }
    ensures sound { (layout : Layout) → KeepsReservation layout hart.now reservation
        → IsSoundEnd layout hart.now result }
{
    End {
        class,
        next: hart.regs.pc.wrapping_add(4),
        rd,
        value,
        reservation,
        due: false,
    }
}

// The end after an access of a device register, with a value for a register.
pub(crate) fn end_device(hart: &Hart, rd: u8, value: u64) -> End
    requires { rd < 32 }
    ensures works { EndsAs hart.now (λ a. computes_device a rd value) result }
    ensures sound { (layout : Layout) → IsSoundEnd layout hart.now result }
{
    End {
        due: true,
        ..end_with(hart, Class::Device, rd, value)
    }
}

// Such an end that writes no register.
pub(crate) fn end_device_write(hart: &Hart) -> End
    ensures works { EndsAs hart.now (λ a. passes_device a) result }
    ensures sound { (layout : Layout) → IsSoundEnd layout hart.now result }
{
    end_device(hart, 0, 0)
}
