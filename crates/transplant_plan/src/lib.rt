//! Plans: which engine runs each class of work, and how many banks of memory, pipes and kernels
//! there are. A plan is read from a file in TOML, with a default for what the file leaves out, and
//! printed as one.
#![tactic(auto)]

mod checks;
mod fault;
mod names;
mod plan;
mod printing;
mod reading;

pub use fault::PlanFault;
pub use plan::Plan;
pub use printing::plan_text;
pub use reading::read_plan;

#[cfg(test)]
mod tests;
