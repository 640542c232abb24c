//! Tables with a place for each receipt that a determinant can name.
ghost use Rattle.std.specs.Prelude.{◌≡◌, ℕ, ◌<◌, true, None, option_copied};
ghost use Rattle.loggers.specs.Places.{place, has_place, at, with_place, EachChanged};

use network::seq_no::SeqNo;
use workload::host::Host;

/// A place for each receiver and receipt number, empty or not.
// One array of 512, by a rule of the project; host and number go together as `find` takes them.
#[derive(Drop)]
pub struct Places<T> {
    places: [Option<T>; 512],
}

/// The place for receipt number r of host q.
fn place(q: Host, r: SeqNo) -> usize
    ensures value { result ≡ place q r }
    ensures low { result < 512 }
    ensures named { has_place q r ≡ true }
{
    q.index() * 64 + r.number() as usize - 1
}

impl<T: Copy> Places<T> {
    #[tactic(auto, using(crate::proofs::Placing::at_empty))]
    pub fn empty() -> Places<T>
        ensures { (q r : ℕ) → at result.places None q r ≡ None }
    {
        Places {
            places: [None; 512],
        }
    }

    /// What stands in the place, if it is not empty.
    pub fn get(&self, q: Host, r: SeqNo) -> Option<&T>
        ensures { option_copied result ≡ at self.now.places None q r }
    {
        self.places[place(q, r)].as_ref()
    }

    pub fn set(&mut self, q: Host, r: SeqNo, x: T)
        ensures { at self.new.places None ≡ with_place (at self.old.places None) q r x }
    {
        self.places[place(q, r)] = Some(x);
    }

    /// Changes by a rule what stands in each place that is not empty.
    pub fn change<F: Fn(&mut T)>(&mut self, rule: F)
        requires { F.IsAlwaysCallable rule }
        ensures { EachChanged (F.post rule) self.old.places self.new.places }
    {
        // Tried with `flatten`: a proof then knows nothing of what the loop wrote.
        for place in self.places.iter_mut() {
            if let Some(x) = place {
                rule(x);
            }
        }
    }
}
