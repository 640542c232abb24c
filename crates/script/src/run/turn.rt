ghost use Rattle.std.specs.Prelude.{◌≡◌, ◌≤◌, length};
ghost use Rattle.cluster.specs.View.{system};
ghost use Rattle.format.specs.Reader.{reading};
ghost use Rattle.script.specs.Course.{OpenListed, Turned, Finished, Runs};
ghost use Rattle.script.specs.Run.{left};
ghost use Rattle.script.specs.Standing.{Begins, SameRun, AfterOpen, AfterTurn, Leads, first_end, turn_end, leaving};

use super::Ran;
use super::course::Course;
use cluster::cluster::Cluster;
use format::command::OPEN_LETTER;
use format::fault::RunFault;
use format::listing::{Entry, Listing};
use format::reader::{OPEN_LEN, Reader};
use logger::logger::Logger;
use workload::Workload;

impl Course<'_> {
    /// The first turn: opens the cluster, and puts the line of that.
    fn open<L: Logger, W: Workload>(
        &mut self,
        cluster: &mut Cluster<L, W>,
        n: u8,
        f: u8,
        listing: &mut Listing,
    ) -> Result<(), RunFault>
        requires { Begins self.old listing.old }
        ensures listed { OpenListed L.Logger W.Workload.machine n f listing.old.bytes.now (system W.Workload cluster.old) (first_end result listing.new) listing.new.bytes.now (system W.Workload cluster.new) }
        ensures same { SameRun self.old self.new listing.old listing.new }
        ensures after { AfterOpen result self.old self.new listing.old listing.new }
        ensures leads { Leads L.Logger W.Workload.machine n f self.old.script.now listing.old.bytes.now (system W.Workload cluster.new) result self.new listing.new }
    {
        let answer = cluster.open(n, f)?;
        let opened = Entry {
            number: self.number,
            letter: OPEN_LETTER,
            answer: Ok(answer),
        };
        listing.list(opened)?;
        self.number += 1;
        self.place = OPEN_LEN;
        Ok(())
    }

    /// One turn: reads a command, makes its call, and puts its line. Answers whether there was a command.
    fn turn<L: Logger, W: Workload>(
        &mut self,
        cluster: &mut Cluster<L, W>,
        listing: &mut Listing,
    ) -> Result<bool, RunFault>
        requires { self.old.number ≤ self.old.place }
        ensures turned { Turned L.Logger (reading self.old.script.now self.old.place) self.old.number listing.old.bytes.now listing.old.written (system W.Workload cluster.old) (turn_end result listing.new) listing.new.bytes.now (system W.Workload cluster.new) }
        ensures same { SameRun self.old self.new listing.old listing.new }
        ensures after { AfterTurn result self.old self.new listing.old listing.new }
    {
        let mut reader = Reader::new(self.script, self.place);
        let Some(command) = reader.next()? else {
            return Ok(false);
        };
        listing.list(Entry {
            number: self.number,
            letter: command.letter(),
            answer: cluster.call(command.into()),
        })?;
        self.number += 1;
        self.place = reader.place();
        Ok(true)
    }

    /// Makes the turns after the first, to the end of the script or to a fault.
    fn rest<L: Logger, W: Workload>(
        &mut self,
        cluster: &mut Cluster<L, W>,
        listing: &mut Listing,
    ) -> Result<(), RunFault>
        requires { self.old.number ≤ self.old.place }
        ensures finished { Finished L.Logger self.old.script.now (system W.Workload cluster.old) self.old.place self.old.number listing.old.bytes.now listing.old.written (leaving self.new listing.new result) }
        ensures same { SameRun self.old self.new listing.old listing.new }
    {
        // `turn` counts the command: a stop tells its number, which no loop over a reader that may fail would leave.
        while self.turn(cluster, listing)? {}
        Ok(())
    }

    /// Plays the script on a cluster of n hosts, of which f may be down at once.
    pub(super) fn play_on<L: Logger, W: Workload>(
        &mut self,
        cluster: &mut Cluster<L, W>,
        n: u8,
        f: u8,
        listing: &mut Listing,
    ) -> Result<(), RunFault>
        requires { Begins self.old listing.old }
        ensures runs { Runs L.Logger W.Workload.machine n f self.old.script.now listing.old.bytes.now (leaving self.new listing.new result) }
        ensures same { SameRun self.old self.new listing.old listing.new }
    {
        self.open(cluster, n, f, listing)?;
        self.rest(cluster, listing)
    }
}

/// Plays a script whose first command opens a cluster of n hosts, of which f may be down at once.
pub fn play_on<L: Logger, W: Workload>(
    cluster: &mut Cluster<L, W>,
    n: u8,
    f: u8,
    script: &[u8],
    listing: &mut [u8],
) -> Ran
    ensures runs { Runs L.Logger W.Workload.machine n f script.now listing.old (left listing.new result) }
    ensures within { result.written ≤ length listing.old }
{
    let mut course = Course::new(script);
    let mut listing = Listing::new(listing);
    let ended = course.play_on(cluster, n, f, &mut listing);
    course.ran(&listing, ended)
}
