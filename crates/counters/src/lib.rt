// Totals for a run: the counters that an order touches, how an answer is added to them, and the record that holds them all.
#![tactic(auto)]

ghost use Rattle.std.specs.Prelude.{◌≡◌};
ghost use Rattle.counters.specs.Counters.{counters_after, Room};

use model::answer::Answer;

pub mod lent;

// The counters that an order touches: the orders counted where it is (those accepted of its kind, or those refused), memory reads, memory
// writes, and swaps that succeeded.
#[derive(Clone, Copy)]
pub struct Counters {
    pub orders: u64,
    pub reads: u64,
    pub writes: u64,
    pub swaps: u64,
}

impl Counters {
    // The counters with one answer added.
    #[tactic(auto, unfolding(crate::specs::Counters::counters_after))]
    fn added(self, a: Answer) -> Counters
        requires { Room self a }
        ensures { result ≡ counters_after self a }
    {
        Counters {
            orders: self.orders + 1,
            reads: self.reads + a.reads,
            writes: self.writes + a.writes,
            swaps: self.swaps + a.swapped,
        }
    }

    // The counters are lent, and brought up to date in place: one answer is added.
    pub fn bring_up_to_date(&mut self, a: Answer)
        requires { Room self.old a }
        ensures { self.new ≡ counters_after self.old a }
    {
        *self = self.added(a);
    }

    // The same for a caller that has the counters by value.
    pub fn updated(mut self, a: Answer) -> Counters
        requires { Room self a }
        ensures { result ≡ counters_after self a }
    {
        self.bring_up_to_date(a);
        self
    }
}
