// Refusals 2, 3 and 12 of what a host lends: the shape, and the lengths of the slices in bytes.
#![tactic(auto)]

ghost use Rattle.std.specs.Prelude.{◌≡◌, true};
ghost use Rattle.refusals.specs.Numbers.{refusal_in};
ghost use Rattle.shape.specs.Shape.{in_range};
ghost use Rattle.lengths.specs.Lengths.{tables_fit, bytes_fit, refusal_by};

use refusals::Refusal;
use shape::{Shape, Sizes};

// The lengths of the three tables in bytes are those of the shape.
#[tactic(auto, unfolding(crate::specs::Lengths::tables_fit))]
pub fn tables_fit(shape: Shape, tags: usize, states: usize, data: usize) -> bool
    requires { in_range shape ≡ true }
    ensures { result ≡ tables_fit shape tags states «data» }
{
    let n = shape.sizes();
    (tags == n.tags) & (states == n.states) & (data == n.data)
}

// Main memory has its length too.
#[tactic(auto, unfolding(crate::specs::Lengths::bytes_fit))]
fn bytes_fit(shape: Shape, lent: Sizes) -> bool
    requires { in_range shape ≡ true }
    ensures { result ≡ bytes_fit shape lent.memory lent.tags lent.states lent.«data» }
{
    let n = shape.sizes();
    (lent.memory == n.memory) & tables_fit(shape, lent.tags, lent.states, lent.data)
}

// The shape, and then what is lent, by its lengths in bytes; out says that the slice written to has its length.
#[tactic(auto, unfolding(crate::specs::Lengths::refusal_by))]
pub fn check(shape: Shape, lent: Sizes, out: bool) -> Result<(), Refusal>
    ensures { refusal_in result ≡ refusal_by shape lent.memory lent.tags lent.states lent.«data» out }
{
    if !shape.is_in_range() {
        return Err(Refusal::Shape);
    }
    shape.check_fit(bytes_fit(shape, lent) & out)
}
