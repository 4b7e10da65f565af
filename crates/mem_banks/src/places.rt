ghost use Rattle.std.specs.Prelude.{◌≡◌, if◌then◌else◌, None, Some};
ghost use Rattle.flex_base.specs.FlatMemory.{is_ram_access};
ghost use Rattle.flex_base.specs.Banks.{address_of};

use flex_base::Access;

// The address of an access of RAM. None means that the access is of the devices.
pub(crate) fn ram_address(acc: &Access) -> Option<u64>
    ensures { result ≡ (if is_ram_access acc.now then Some (address_of acc.now) else None) }
{
    match acc {
        Access::Fetch { address } | Access::Pte { address } => Some(*address),
        Access::Read { address, .. } | Access::Write { address, .. } => Some(*address),
        Access::Lr { address, .. } | Access::Sc { address, .. } => Some(*address),
        Access::Amo { address, .. } => Some(*address),
        Access::DevRead { .. } | Access::DevWrite { .. } | Access::Time => None,
        Access::Pulse { .. } | Access::Wait { .. } | Access::Retire => None,
    }
}
