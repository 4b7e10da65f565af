ghost use Rattle.std.specs.Prelude.{◌≡◌};
ghost use Rattle.flex_base.specs.FlatMemory.{reservation_set, is_reserved};

/// Where the aligned 8 bytes that contain the address begin, which are those that a load-reserved
/// reserves (Volume I, "Load-Reserved/Store-Conditional Instructions").
pub fn reservation_set(address: u64) -> u64
    ensures { result ≡ reservation_set address }
{
    address - address % 8
}

/// Whether there is a reservation, and it is of these aligned 8 bytes (Volume I,
/// "Load-Reserved/Store-Conditional Instructions").
pub fn is_reserved(reservation: Option<u64>, reservation_set: u64) -> bool
    ensures { result ≡ is_reserved reservation reservation_set }
{
    match reservation {
        Some(held) => held == reservation_set,
        None => false,
    }
}
