//! What is fed to a crash-free run: each item has a place for the answer.
ghost use Rattle.std.specs.Prelude.{◌≡◌, ℕ, Result};
ghost use Rattle.network.specs.declared.refusal.Refusal.{Refusal};
ghost use Rattle.network.specs.Network.{posting, delivering};
ghost use Rattle.network.specs.Run.{Feed};
ghost use Rattle.hosts.specs.View.{look};
ghost use Rattle.hosts.specs.Feed.{post_pair, post_answer, delivery_pair, delivery_answer};

use super::CrashFree;
use network::refusal::Refusal;
use workload::Workload;

/// A body that the outside world posts to a host.
#[derive(Clone, Copy)]
pub struct Post {
    pub host: u8,
    pub body: u64,
    pub answer: Result<u64, Refusal>,
}

/// A pair of a receiver and a sender, whose next message is taken.
#[derive(Clone, Copy)]
pub struct Delivery {
    pub host: u8,
    pub sender: u8,
    pub answer: Result<u64, Refusal>,
}

/// What can be done to a run over a workload.
pub trait Item<W: Workload> {
    /// The two numbers that the run is given.
    ghost pair: { Self → ℕ × ℕ };

    /// The item with this answer.
    ghost note: { Self → Result ℕ Refusal → Self };

    /// What comes of them.
    ghost feed: { Feed W.State };

    /// Does it, and notes the answer.
    fn feed_to(&mut self, run: &mut CrashFree<W>)
        ensures network { look W.Workload run.new.hosts ≡ (feed (look W.Workload run.old.hosts) (pair self.old).0 (pair self.old).1).1 }
        ensures answer { self.new ≡ note self.old (feed (look W.Workload run.old.hosts) (pair self.old).0 (pair self.old).1).0 };
}

impl<W: Workload> Item<W> for Post {
    ghost pair = { post_pair };

    ghost note = { post_answer };

    ghost feed = { posting };

    fn feed_to(&mut self, run: &mut CrashFree<W>) {
        self.answer = run.post(self.host, self.body);
    }
}

impl<W: Workload> Item<W> for Delivery {
    ghost pair = { delivery_pair };

    ghost note = { delivery_answer };

    ghost feed = { delivering };

    fn feed_to(&mut self, run: &mut CrashFree<W>) {
        self.answer = run.deliver(self.host, self.sender);
    }
}
