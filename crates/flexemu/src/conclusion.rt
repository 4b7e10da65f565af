ghost use Rattle.std.specs.Prelude.{◌≡◌};
ghost use Rattle.flex_base.specs.Files.{AppendsPart};
ghost use Rattle.flex_top.specs.Status.{status_code, status_text};

use flex_base::write_whole;
use flex_top::{Status, status_code, status_text};
use std::alloc::Global;
use std::io::Write;

/// Says what came of the command, and gives the number with which the program ends.
///
/// Where the line can't be said whole, for want of memory or by a failed write, the number still
/// tells the status.
pub(crate) fn conclude<W: Write>(alloc: Global, stderr: &mut W, status: &Status) -> u8
    ensures code { result ≡ status_code status.now }
    ensures line { AppendsPart (W.contents stderr.old) (W.contents stderr.new) (status_text status.now) }
{
    if let Ok(text) = status_text(alloc, status) {
        let _ = write_whole(stderr, &text);
    }
    status_code(status)
}

#[cfg(test)]
mod tests {
    use super::*;
    use flex_top::{ImageFault, PlanFault};
    use std::test::Fail;

    #[test]
    fn concludes_each_status(rt: HostRuntime) -> Result<(), Fail> {
        for (status, code, line) in [
            (Status::Ended, 0, ""),
            (Status::Usage, 1, "flexemu: usage\n"),
            (Status::ReadFault, 2, "flexemu: read fault\n"),
            (
                Status::ImageRefused(ImageFault::SegmentOutsideRam(0)),
                3,
                "flexemu: image refused 9\n",
            ),
            (
                Status::ImageRefused(ImageFault::TooLong(268_435_457)),
                3,
                "flexemu: image refused 11\n",
            ),
            (
                Status::PlanRefused(PlanFault::NotToml),
                4,
                "flexemu: plan refused 2\n",
            ),
            (Status::OutOfMemory, 5, "flexemu: out of memory\n"),
            (Status::WriteFault, 6, "flexemu: write fault\n"),
            (
                Status::InputTooLong(1_048_577),
                7,
                "flexemu: input too long 1048577\n",
            ),
        ] {
            let mut stderr = Vec::from_slice(rt.alloc(), b"before\n")?;
            assert_eq!(rt;
                conclude(rt.alloc(), &mut stderr, &status),
                code,
                "the code of {line}"
            );
            assert_eq!(rt; &stderr[..7], b"before\n".as_slice());
            assert_eq!(rt; &stderr[7..], line.as_bytes(), "the line {line}");
        }
        Ok(())
    }
}
