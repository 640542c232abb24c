//! Tables of what each host received, sent and put out, and of what belongs to the outside world. Nothing allocates.
#![tactic(auto)]

pub mod by_host;
mod record;
pub mod records;
