ghost use Rattle.std.specs.Prelude.{◌≡◌, ◌≤◌, length};
ghost use Rattle.script.specs.Choice.{RunsChosen, RunsRead};
ghost use Rattle.script.specs.Course.{Runs};
ghost use Rattle.script.specs.Run.{left, first_read, whole, EndsByItself};
ghost use Rattle.script.specs.Standing.{Begins, SameRun, leaving};

use super::Ran;
use super::course::Course;
use cluster::cluster::Cluster;
use format::command::{LoggerChoice, Opening, WorkloadChoice};
use format::fault::{ReadFault, RunFault};
use format::listing::Listing;
use format::reader::Reader;
use logger::logger::Logger;
use loggers::family_based::FamilyBased;
use loggers::pessimistic::Pessimistic;
use workload::Workload;
use workload::ledger::Ledger;
use workload::spacing::Spacing;

/// The most bytes that a script or a listing has.
pub const MOST: usize = 65536;

impl Course<'_> {
    /// Reads the open of the script, if script and listing are not too long.
    fn first(&self, listing: &Listing) -> Result<Opening, ReadFault>
        requires { Begins self.now listing.now }
        ensures { result ≡ first_read self.now.script.now listing.now.bytes.now }
    {
        if self.script.len() > MOST || listing.capacity() > MOST {
            return Err(ReadFault::TooLong);
        }
        Reader::new(self.script, self.place).open()
    }

    /// Plays on a new cluster over this logger and this workload.
    fn play_new<L: Logger + Drop, W: Workload + Drop>(
        &mut self,
        logger: L,
        workload: W,
        opening: Opening,
        listing: &mut Listing,
    ) -> Result<(), RunFault>
        requires { Begins self.old listing.old }
        ensures runs { Runs L.Logger W.Workload.machine opening.n opening.f self.old.script.now listing.old.bytes.now (leaving self.new listing.new result) }
        ensures same { SameRun self.old self.new listing.old listing.new }
    {
        let mut cluster = Cluster::new(logger, workload);
        self.play_on(&mut cluster, opening.n, opening.f, listing)
    }

    /// Plays with the logger and the workload that the open asks for.
    // Four cases, and no `dyn`: each has the theorem of its own logger and workload.
    fn play_chosen(&mut self, opening: Opening, listing: &mut Listing) -> Result<(), RunFault>
        requires { Begins self.old listing.old }
        ensures runs { RunsChosen opening.logger opening.workload opening.n opening.f self.old.script.now listing.old.bytes.now (leaving self.new listing.new result) }
        ensures same { SameRun self.old self.new listing.old listing.new }
    {
        match (opening.logger, opening.workload) {
            (LoggerChoice::Pessimistic, WorkloadChoice::Ledger) => {
                self.play_new(Pessimistic::new(), Ledger::new(), opening, listing)
            }
            (LoggerChoice::Pessimistic, WorkloadChoice::Spacing) => {
                self.play_new(Pessimistic::new(), Spacing::new(), opening, listing)
            }
            (LoggerChoice::FamilyBased, WorkloadChoice::Ledger) => {
                self.play_new(FamilyBased::new(), Ledger::new(), opening, listing)
            }
            (LoggerChoice::FamilyBased, WorkloadChoice::Spacing) => {
                self.play_new(FamilyBased::new(), Spacing::new(), opening, listing)
            }
        }
    }

    /// Reads the open, and plays the script on a cluster of its own.
    fn play(&mut self, listing: &mut Listing) -> Result<(), RunFault>
        requires { Begins self.old listing.old }
        ensures runs { RunsRead (first_read self.old.script.now listing.old.bytes.now) self.old.script.now listing.old.bytes.now (leaving self.new listing.new result) }
        ensures same { SameRun self.old self.new listing.old listing.new }
    {
        let opening = self.first(listing)?;
        self.play_chosen(opening, listing)
    }
}

/// Plays a script on a cluster of its own, and lists its commands.
// `within` was promised in public, here and by `play_on`, so it stays.
pub fn play(script: &[u8], listing: &mut [u8]) -> Ran
    ensures value { left listing.new result ≡ whole script.now listing.old }
    ensures guaranteed { RunsRead (first_read script.now listing.old) script.now listing.old (left listing.new result) }
    ensures within { result.written ≤ length listing.old }
{
    let mut course = Course::new(script);
    let mut listing = Listing::new(listing);
    let ended = course.play(&mut listing);
    course.ran(&listing, ended)
}

/// A run ends by itself, whatever the script.
pub fn ends_by_itself()
    ensures { EndsByItself }
{}
