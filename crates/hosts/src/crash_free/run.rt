ghost use Rattle.std.specs.Prelude.{◌≡◌, map};
ghost use Rattle.network.specs.Run.{after};
ghost use Rattle.hosts.specs.Feed.{answered, running};
ghost use Rattle.hosts.specs.View.{look};

use super::CrashFree;
use super::feed::{Delivery, Item, Post};
use network::refusal::Refusal;
use workload::Workload;

impl<W: Workload> CrashFree<W> {
    /// Feeds each item in turn, and notes its answer.
    fn feed<T: Item<W>>(&mut self, items: &mut [T])
        ensures network { look W.Workload self.new.hosts ≡ after T.feed (look W.Workload self.old.hosts) (map T.pair items.old) }
        ensures answers { items.new ≡ answered T.feed T.pair T.note (look W.Workload self.old.hosts) items.old }
    {
        for item in items.iter_mut() {
            item.feed_to(self);
        }
    }

    /// A whole run: n hosts, fed all posts and then all deliveries. Each item gets its answer; one that is
    /// refused alters nothing else.
    pub fn run(
        &mut self,
        n: u8,
        posts: &mut [Post],
        deliveries: &mut [Delivery],
    ) -> Result<u64, Refusal>
        ensures { running W.Workload (record { network = look W.Workload self.old.hosts; posts = posts.old; deliveries = deliveries.old }) n ≡ (result, record { network = look W.Workload self.new.hosts; posts = posts.new; deliveries = deliveries.new }) }
    {
        let started = self.start(n)?;
        self.feed(posts);
        self.feed(deliveries);
        Ok(started)
    }
}
