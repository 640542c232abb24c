ghost use Rattle.std.specs.Prelude.{◌≡◌, ℕ, []};
ghost use Rattle.records.specs.View.{row};

use records::by_host::ByHost;

/// What the outside world has given each host, and what it has got from it. No crash takes any of it.
#[derive(Drop)]
pub struct Outside {
    /// The posts to each host.
    pub posts: ByHost,
    /// The outputs that each host released.
    pub released: ByHost,
}

impl Outside {
    /// An outside world that has given and got nothing.
    pub fn new() -> Outside
        ensures posts { row result.posts ≡ (λ (h : ℕ). []) }
        ensures released { row result.released ≡ (λ (h : ℕ). []) }
    {
        Outside {
            posts: ByHost::empty(),
            released: ByHost::empty(),
        }
    }

    /// The same, in place.
    pub fn clear(&mut self)
        ensures posts { row self.new.posts ≡ (λ (h : ℕ). []) }
        ensures released { row self.new.released ≡ (λ (h : ℕ). []) }
    {
        self.posts.clear();
        self.released.clear();
    }
}
