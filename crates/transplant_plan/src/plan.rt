ghost use Rattle.std.specs.Prelude.{◌≡◌, ◌<◌, ℕ, IsTrue, true, pos};
ghost use Rattle.flex_base.specs.Classes.{can_run};
ghost use Rattle.transplant_plan.specs.Assignment.{default_assignment, is_allowed, bank_counts, pipe_counts, kernel_counts};
ghost use Rattle.transplant_plan.specs.Planning.{AllCanRun, class_index};

use flex_base::{Class, Engine};

/// How many banks of memory there are where a plan doesn't say it.
pub(crate) const DEFAULT_BANKS: u8 = 4;

/// How many pipes there are where a plan doesn't say it.
pub(crate) const DEFAULT_PIPES: u8 = 2;

/// How many kernels there are where a plan doesn't say it.
pub(crate) const DEFAULT_KERNELS: u8 = 1;

/// The numbers of banks that there may be.
pub(crate) const BANK_COUNTS: [u8; 7] = [1, 2, 4, 8, 16, 32, 64];

/// The numbers of pipes that there may be.
pub(crate) const PIPE_COUNTS: [u8; 8] = [1, 2, 3, 4, 5, 6, 7, 8];

/// The numbers of kernels that there may be.
pub(crate) const KERNEL_COUNTS: [u8; 4] = [1, 2, 3, 4];

/// The engine of each class, which can run it, and how many banks of memory, pipes and kernels there
/// are.
#[derive(Clone, Copy, Debug, PartialEq, Eq)]
pub struct Plan {
    // The engines by the order of `Class`.
    pub(crate) engines: [Engine; 14],
    pub(crate) banks: u8,
    pub(crate) pipes: u8,
    pub(crate) kernels: u8,
    ghost engines_can_run: { AllCanRun engines },
    ghost banks_allowed: { IsTrue (is_allowed bank_counts (pos banks)) },
    ghost pipes_allowed: { IsTrue (is_allowed pipe_counts (pos pipes)) },
    ghost kernels_allowed: { IsTrue (is_allowed kernel_counts (pos kernels)) },
}

impl Plan {
    ghost use Rattle.transplant_plan.specs.Shown.{shown};

    /// The plan that gives each class to the first of pipe, kernel and host that can run it, with 4
    /// banks, 2 pipes and 1 kernel.
    pub fn default_plan() -> Plan
        ensures { shown result ≡ default_assignment }
    {
        let pipe = Engine::Pipe;
        let kernel = Engine::Kernel;
        Plan {
            engines: [
                pipe,
                pipe,
                pipe,
                pipe,
                pipe,
                pipe,
                pipe,
                pipe,
                kernel,
                kernel,
                kernel,
                kernel,
                kernel,
                Engine::Host,
            ],
            banks: DEFAULT_BANKS,
            pipes: DEFAULT_PIPES,
            kernels: DEFAULT_KERNELS,
        }
    }

    /// The engine of a class, which can run it.
    pub fn engine_for(&self, class: Class) -> Engine
        ensures engine { (hart : ℕ) → result ≡ (shown self.now).engines hart class }
        ensures capable { can_run class result ≡ true }
    {
        self.engines[index_of(class)]
    }

    /// How many banks of memory there are: a power of two, 1 to 64.
    pub fn banks(&self) -> u8
        ensures count { result ≡ (shown self.now).banks }
        ensures allowed { is_allowed bank_counts (pos result) ≡ true }
    {
        self.banks
    }

    /// How many pipes there are, 1 to 8.
    pub fn pipes(&self) -> u8
        ensures count { result ≡ (shown self.now).pipes }
        ensures allowed { is_allowed pipe_counts (pos result) ≡ true }
    {
        self.pipes
    }

    /// How many kernels there are, 1 to 4.
    pub fn kernels(&self) -> u8
        ensures count { result ≡ (shown self.now).kernels }
        ensures allowed { is_allowed kernel_counts (pos result) ≡ true }
    {
        self.kernels
    }
}

// The place of a class in a plan's engines.
fn index_of(class: Class) -> usize
    ensures place { result ≡ class_index class }
    ensures within { result < 14 }
{
    class as usize
}
