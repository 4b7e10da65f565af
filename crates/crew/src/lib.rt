//! All harts of a run on threads: pipes, kernels and the host run them beside one another, and a
//! coordinator wakes them, hands them over and deals them out. What they have done is one run of the
//! unsplit machine, in the order in which the numbers of the events were drawn.
#![tactic(auto)]

mod coordinator;
mod ending;
mod law_on_banks;
mod law_on_lists;
mod law_on_stories;
mod machine;
mod pipe;
mod room;
mod running;
mod worker;

pub use law_on_banks::{byte_of_bank, reply_of_bank};
pub use law_on_lists::{logs_make_run, merged_parts};
pub use law_on_stories::accesses_stand;
pub use machine::Machine;
pub use running::run;
