ghost use Rattle.std.specs.Prelude.{◌≡◌, ◌<◌, true, IfOk, IfErr};
ghost use Rattle.flex_base.specs.Loaded.{image_fits};
ghost use Rattle.flex_top.specs.Images.{IsTaken, IsRefused};

use flex_base::Image;
use image_loader::{ImageFault, load};
use std::alloc::Global;

/// The image that the bytes of a file are, in so many bytes of RAM. The file is let go, so that a
/// run has no copy of it beside its image and its RAM.
pub(crate) fn image_of(alloc: Global, file: Vec<u8>, ram: u64) -> Result<Image, ImageFault>
    requires { 0 < ram }
    ensures image { IfOk result (IsTaken file.items ram) }
    ensures fits { IfOk result (λ image. image_fits ram image ≡ true) }
    ensures refused { IfErr result (IsRefused file.items ram) }
{
    load(alloc, &file, ram)
}
