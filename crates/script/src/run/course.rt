ghost use Rattle.std.specs.Prelude.{◌≡◌, ◌≤◌, length};
ghost use Rattle.script.specs.Run.{left};
ghost use Rattle.script.specs.Standing.{leaving};

use super::Ran;
use format::fault::{RunFault, Stop};
use format::listing::Listing;

/// How far a run has come: the command that is next, by its place in the script and its number. The listing is not
/// held here but passed: of a buffer that is lent to a struct within a struct, nothing would be known after the run.
// Script and place, and no reader: a course stays at a command until its line is put, and a reader has moved on by then.
#[derive(Clone, Copy)]
pub(super) struct Course<'s> {
    pub(super) script: &'s [u8],
    pub(super) place: usize,
    pub(super) number: u64,
}

impl<'s> Course<'s> {
    /// A course before the first command.
    pub(super) fn new(script: &'s [u8]) -> Course<'s>
        ensures script { result.script ≡ script.entry }
        ensures place { result.place ≡ 0 }
        ensures number { result.number ≡ 1 }
    {
        Course {
            script,
            place: 0,
            number: 1,
        }
    }

    /// What a run leaves that ended here, at the script's end or at a fault.
    pub(super) fn ran(&self, listing: &Listing, ended: Result<(), RunFault>) -> Ran
        ensures value { left listing.now.bytes.now result ≡ leaving self.now listing.now ended }
        ensures within { result.written ≤ length listing.now.bytes.now }
    {
        // copied, since of a closure over `self` it is not known what it gives
        let command = self.number;
        let place = self.place;
        Ran {
            written: listing.written(),
            stop: ended.err().map(|fault| Stop {
                fault,
                command,
                place,
            }),
        }
    }
}
