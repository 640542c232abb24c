use format::fault::Stop;

mod choice;
mod course;
mod turn;

pub use choice::{MOST, ends_by_itself, play};
pub use turn::play_on;

/// What a run leaves besides the listing: how many bytes of it are written, and the stop, if the run did not come to
/// the script's end.
#[derive(Clone, Copy, PartialEq, Eq, Debug)]
pub struct Ran {
    // A number, and no slice of the listing: C is told how much is written.
    pub written: usize,
    pub stop: Option<Stop>,
}
