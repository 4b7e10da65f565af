ghost use Rattle.std.specs.Prelude.{◌≡◌};

use super::*;

fn leaf(page: u64, frame: u64) -> Leaf
    ensures page { result.page ≡ page }
    ensures frame { result.frame ≡ frame }
{
    Leaf {
        page,
        frame,
        flags: 0xcf,
    }
}

#[test]
fn keeps_17_pages_in_16_places(rt: HostRuntime) {
    let mut kept = Kept::new();
    for page in 0..16u64 {
        assert_eq!(rt; kept.look(page), None);
        kept.keep(leaf(page, 0x80000 + page));
    }
    for page in 0..16u64 {
        assert_eq!(rt; kept.look(page), Some(leaf(page, 0x80000 + page)), "{page}");
    }
    // Page 16 takes the place of page 0 alone, and page 0 comes back in its place.
    kept.keep(leaf(16, 0x80100));
    assert_eq!(rt; kept.look(0), None);
    assert_eq!(rt; kept.look(16), Some(leaf(16, 0x80100)));
    assert_eq!(rt; kept.look(32), None);
    for page in 1..16u64 {
        assert_eq!(rt; kept.look(page), Some(leaf(page, 0x80000 + page)), "{page}");
    }
    kept.keep(leaf(0, 0x80200));
    assert_eq!(rt; kept.look(0), Some(leaf(0, 0x80200)));
    assert_eq!(rt; kept.look(16), None);
    // The last leaf of a page counts.
    kept.keep(leaf(0, 0x80300));
    assert_eq!(rt; kept.look(0), Some(leaf(0, 0x80300)));

    // The largest page, frame and flags; no page has a number beyond.
    let last = Leaf {
        page: 0x7ff_ffff,
        frame: 0xfff_ffff_ffff,
        flags: 0xff,
    };
    kept.keep(last);
    assert_eq!(rt; kept.look(0x7ff_ffff), Some(last));
    assert_eq!(rt; kept.look(15), None);
    assert_eq!(rt; kept.look(0xffff_ffff), None);
    assert_eq!(rt; kept.look(0x8_07ff_ffff), None);

    kept.clear();
    for page in 0..17u64 {
        assert_eq!(rt; kept.look(page), None, "{page}");
    }
    assert_eq!(rt; kept.look(0x7ff_ffff), None);
}
