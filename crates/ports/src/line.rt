// A line of a shape, and where the ports' entries for it are.
ghost use Rattle.std.specs.Prelude.{◌≡◌, true, ◌<◌};
ghost use Rattle.shape.specs.Shape.{in_range};
ghost use Rattle.ports.specs.Line.{line_of};

use shape::{Place, Shape};

// Line `number` of the shape. Port p's entry for it is the one at the place's index, and holds the line where it isn't I and has the
// place's tag. An entry at this index with a tag below the limit has a home line below lines.
#[derive(Clone, Copy)]
pub struct Line {
    pub shape: Shape,
    pub number: usize,
    pub place: Place,
}

#[tactic(auto, unfolding(crate::specs::Line::line_of))]
pub fn line_of(shape: Shape, a: usize) -> Line
    requires { (in_range shape ≡ true) × (a < shape.lines) }
    ensures { result ≡ line_of shape a }
{
    let place = shape.place(a);
    Line {
        shape,
        number: a,
        place,
    }
}
