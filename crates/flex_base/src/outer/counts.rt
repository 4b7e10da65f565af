// Counts of faults and calls.
ghost use Rattle.std.specs.Prelude.{◌≡◌};
ghost use Rattle.flex_base.specs.FilesInMemory.{one_more};

// One more, up to the greatest count.
pub(crate) fn rise(count: &mut u64)
    ensures { count.new ≡ one_more count.old }
{
    if *count < u64::MAX {
        *count += 1;
    }
}
