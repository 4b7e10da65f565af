ghost use Rattle.std.specs.Prelude.{◌≡◌, ◌+◌, ◌≤◌, ◌++◌, length, decimal, IfOk};
ghost use Rattle.flex_top.specs.Status.{meaning, is_ended, status_code, status_text};

use flex_base::Line;
use image_loader::ImageFault;
use itoa::Buffer;
use std::alloc::{AllocError, Global};
use transplant_plan::PlanFault;

/// What a command answers.
#[derive(Debug, Drop)]
pub enum Status {
    /// It did all that it was asked.
    Ended,
    /// The words have no reading.
    Usage,
    /// A file couldn't be read.
    ReadFault,
    /// The image can't be run.
    ImageRefused(ImageFault),
    /// The plan can't be followed.
    PlanRefused(PlanFault),
    OutOfMemory,
    /// A file couldn't be written.
    WriteFault,
    /// The console's input has this many bytes or more, over the limit.
    InputTooLong(u64),
}

/// The number with which the program ends.
pub fn status_code(status: &Status) -> u8
    ensures { result ≡ status_code status.now }
{
    match status {
        Status::Ended => 0,
        Status::Usage => 1,
        Status::ReadFault => 2,
        Status::ImageRefused(_) => 3,
        Status::PlanRefused(_) => 4,
        Status::OutOfMemory => 5,
        Status::WriteFault => 6,
        Status::InputTooLong(_) => 7,
    }
}

/// What is said of the status on standard error: one line with its line feed, or nothing where
/// all is done. The error is want of memory.
pub fn status_text(alloc: Global, status: &Status) -> Result<Vec<u8>, AllocError>
    ensures { IfOk result (λ text. text.items ≡ status_text status.now) }
{
    let mut line = Line::new();
    if !is_ended(status) {
        line.push(b"flexemu: ");
        push_meaning(&mut line, status);
        line.push(b"\n");
    }
    Vec::from_slice(alloc, line.bytes())
}

fn is_ended(status: &Status) -> bool
    ensures { result ≡ is_ended status.now }
{
    matches!(status, Status::Ended)
}

// Adds what the status says to the line: 35 bytes at most.
fn push_meaning(line: &mut Line, status: &Status)
    requires { length line.old + 35 ≤ 128 }
    ensures text { line.new ≡ line.old ++ meaning status.now }
    ensures room { length line.new ≤ length line.old + 35 }
{
    match status {
        Status::Ended => {}
        Status::Usage => line.push(b"usage"),
        Status::ReadFault => line.push(b"read fault"),
        Status::ImageRefused(fault) => {
            push_numbered(line, b"image refused ", fault.number().into());
        }
        Status::PlanRefused(fault) => {
            push_numbered(line, b"plan refused ", fault.number().into());
        }
        Status::OutOfMemory => line.push(b"out of memory"),
        Status::WriteFault => line.push(b"write fault"),
        Status::InputTooLong(n) => push_numbered(line, b"input too long ", *n),
    }
}

// Adds a text of at most 15 bytes, and a number.
fn push_numbered(line: &mut Line, text: &[u8], number: u64)
    requires short { length text.now ≤ 15 }
    requires fits { length line.old + 35 ≤ 128 }
    ensures text { line.new ≡ line.old ++ (text.now ++ decimal number) }
    ensures room { length line.new ≤ length line.old + 35 }
{
    line.push(text);
    line.push(Buffer::new().format(number).as_bytes());
}

#[cfg(test)]
mod tests {
    use super::*;
    use std::process::Abort;

    #[test]
    fn says_each_status(rt: HostRuntime) -> Result<(), AllocError> {
        for (status, code, text) in [
            (Status::Ended, 0, ""),
            (Status::Usage, 1, "flexemu: usage\n"),
            (Status::ReadFault, 2, "flexemu: read fault\n"),
            (Status::OutOfMemory, 5, "flexemu: out of memory\n"),
            (Status::WriteFault, 6, "flexemu: write fault\n"),
            (
                Status::InputTooLong(1_048_577),
                7,
                "flexemu: input too long 1048577\n",
            ),
            (
                Status::InputTooLong(u64::MAX),
                7,
                "flexemu: input too long 18446744073709551615\n",
            ),
        ] {
            assert_status(&rt, rt.alloc(), &status, code, text)?;
        }
        Ok(())
    }

    #[test]
    fn says_each_fault_of_an_image(rt: HostRuntime) -> Result<(), AllocError> {
        for (fault, text) in [
            (ImageFault::Short, "flexemu: image refused 1\n"),
            (ImageFault::NotElf64Little, "flexemu: image refused 2\n"),
            (ImageFault::NotExec(1), "flexemu: image refused 3\n"),
            (ImageFault::NotRiscv(62), "flexemu: image refused 4\n"),
            (ImageFault::BadHeaderSize, "flexemu: image refused 5\n"),
            (ImageFault::TableOutside, "flexemu: image refused 6\n"),
            (
                ImageFault::SegmentOutsideFile(1),
                "flexemu: image refused 7\n",
            ),
            (ImageFault::FileOverMemory(2), "flexemu: image refused 8\n"),
            (
                ImageFault::SegmentOutsideRam(3),
                "flexemu: image refused 9\n",
            ),
            (ImageFault::BadEntry(5), "flexemu: image refused 10\n"),
            (ImageFault::TooLong(6), "flexemu: image refused 11\n"),
            (ImageFault::OutOfMemory, "flexemu: image refused 12\n"),
        ] {
            assert_status(&rt, rt.alloc(), &Status::ImageRefused(fault), 3, text)?;
        }
        Ok(())
    }

    #[test]
    fn says_each_fault_of_a_plan(rt: HostRuntime) -> Result<(), AllocError> {
        for (fault, text) in [
            (PlanFault::NotUtf8, "flexemu: plan refused 1\n"),
            (PlanFault::NotToml, "flexemu: plan refused 2\n"),
            (PlanFault::OutOfMemory, "flexemu: plan refused 7\n"),
            (PlanFault::TooLong(65_537), "flexemu: plan refused 8\n"),
        ] {
            assert_status(&rt, rt.alloc(), &Status::PlanRefused(fault), 4, text)?;
        }
        Ok(())
    }

    fn assert_status(
        rt: &impl Abort,
        alloc: Global,
        status: &Status,
        code: u8,
        text: &str,
    ) -> Result<(), AllocError> {
        assert_eq!(rt; status_code(status), code, "the code of {text}");
        let said = status_text(alloc, status)?;
        assert!(rt; said.as_slice() == text.as_bytes(), "the text of {text}");
        Ok(())
    }
}
