/// An engine, which runs a hart while it holds it.
#[derive(Clone, Copy, Debug, PartialEq, Eq)]
pub enum Engine {
    /// The interleaved pipeline, for the common instructions.
    Pipe,
    /// The kernel, for rare work such as CSRs, traps and page walks.
    Kernel,
    /// The host simulator, which alone reaches devices.
    Host,
}
