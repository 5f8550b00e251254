// Why a call is refused: the refusals by name, and the number that a C host is given for each.
#![tactic(auto)]

ghost use Rattle.std.specs.Prelude.{◌≡◌};
ghost use Rattle.refusals.specs.Numbers.{number, refusal_in};

// What is wrong. The number of each is in `Refusals`; the checks of a call come in an order of their own, which its definition says.
#[derive(Clone, Copy, Debug, PartialEq, Eq)]
pub enum Refusal {
    // A trace has not the length that its sizes say, or says too many orders.
    Trace,
    // Ports, sets or lines are beyond their limits.
    Shape,
    // What is lent has not the length that the shape asks for.
    Lengths,
    // The order's kind is none.
    Kind,
    // The order's port is not there.
    Port,
    // The order's line is not there.
    Line,
    // A swap's mask is neither half.
    Mask,
    // An entry that the order looks at is no state, or has no home line.
    Entry,
    // A total has no room.
    Totals,
    // A byte is no state of its edition.
    State,
    // A state is in write through, which the old edition does not have.
    Through,
    // A range ends beyond lines.
    Range,
}

impl From<Refusal> for u64 {
    ghost from_gives = { λ r n. n ≡ number r };

    fn from(r: Refusal) -> u64 {
        match r {
            Refusal::Trace => 1,
            Refusal::Shape => 2,
            Refusal::Lengths => 3,
            Refusal::Kind => 4,
            Refusal::Port => 5,
            Refusal::Line => 6,
            Refusal::Mask => 7,
            Refusal::Entry => 8,
            Refusal::Totals => 9,
            Refusal::State => 10,
            Refusal::Through => 11,
            Refusal::Range => 12,
        }
    }
}

// The number that a C host is given: the refusal's, or 0 where there is none.
pub fn number_of<T: Drop>(r: Result<T, Refusal>) -> u64
    ensures { result ≡ refusal_in r }
{
    match r {
        Ok(_) => 0,
        Err(e) => u64::from(e),
    }
}
