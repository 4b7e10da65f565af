use flex_base::{Image, Settings};
use std::snapshot::Snapshot;

/// What a run is of: its settings, and its image and input, which take no bytes here.
#[derive(Drop)]
pub(crate) struct Origin {
    pub(crate) image: Snapshot<Image>,
    pub(crate) settings: Settings,
    pub(crate) input: Snapshot<Vec<u8>>,
}
