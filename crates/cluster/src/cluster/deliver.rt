ghost use Rattle.std.specs.Prelude.{◌≡◌, ◌+◌, ◌<◌, length};
ghost use Rattle.logger.specs.Clauses.{InRange};
ghost use Rattle.logger.specs.Meaning.{determinant};
ghost use Rattle.calls.specs.Calls.{Called, Follows, carried, told};
ghost use Rattle.calls.specs.declared.call.Call.TheVariants.{Deliver, Cut};
ghost use Rattle.cluster.specs.View.{system};

use super::Cluster;
use logger::determinant::Determinant;
use logger::logger::Logger;
use network::message::Message;
use network::refusal::Refusal;
use workload::Workload;
use workload::host::Host;
use workload::sender::Sender;

/// The logger is told that p is about to take a message from s, if s is a host.
fn carry<L: Logger>(logger: &mut L, s: Sender, p: Host)
    ensures { Follows L.Logger (carried p s) logger.old logger.new }
{
    if let Some(sender) = s.host() {
        logger.carry(sender, p);
    }
}

/// The logger is told of a delivery as far as this point.
// The point stays a number: over an enum of the four points the proof of `cut` does not close.
fn tell<L: Logger>(logger: &mut L, s: Sender, p: Host, determinant: Determinant, point: u8)
    requires { InRange determinant }
    ensures { Follows L.Logger (told p s determinant point) logger.old logger.new }
{
    if point >= 1 {
        carry(logger, s, p);
    }
    if point >= 2 {
        logger.note(p, determinant);
    }
}

impl<L: Logger, W: Workload> Cluster<L, W> {
    /// The determinant of the receipt that this message makes at p.
    fn determinant(&self, p: Host, message: Message) -> Determinant
        requires { length ((system W.Workload self.now).cluster.network.hosts p).receipts < 64 }
        ensures { result ≡ determinant p (length ((system W.Workload self.now).cluster.network.hosts p).receipts + 1) message.sender message.ssn }
    {
        Determinant {
            receiver: p.number(),
            number: self.hosts.receipts(p) + 1,
            sender: message.sender,
            ssn: message.ssn,
        }
    }

    /// Host p takes the next message from s. Answers its ssn.
    pub fn deliver(&mut self, p: u8, s: u8) -> Result<u64, Refusal>
        ensures { Called L.Logger (system W.Workload self.old) (Deliver p s) result (system W.Workload self.new) }
    {
        let (host, sender) = self.hosts.check_pair(p, s)?;
        let message = self.check_taking(host, sender)?;
        let determinant = self.determinant(host, message);
        carry(&mut self.logger, sender, host);
        self.logger.note(host, determinant);
        self.hosts.take(host, message);
        Ok(message.ssn as u64)
    }

    /// Begins the same delivery, and p goes down in it at a point. Answers 0. What p took goes with it.
    pub fn cut(&mut self, p: u8, s: u8, point: u8) -> Result<u64, Refusal>
        ensures { Called L.Logger (system W.Workload self.old) (Cut p s point) result (system W.Workload self.new) }
    {
        let (host, sender) = self.hosts.check_pair(p, s)?;
        if point > 3 {
            return Err(Refusal::NoSuchPoint);
        }
        let message = self.check_taking(host, sender)?;
        let determinant = self.determinant(host, message);
        tell(&mut self.logger, sender, host, determinant, point);
        self.logger.lose(host);
        self.take_down(host);
        Ok(0)
    }
}
