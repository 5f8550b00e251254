// A range of lines, as a shape has two.
ghost use Rattle.std.specs.Prelude.{◌≡◌};
ghost use Rattle.shape.specs.Range.{inside, ends_by};

// A first line, and how many lines there are from it on. With a count of 0 the range is empty, wherever it starts.
#[derive(Clone, Copy, Debug, PartialEq, Eq)]
pub struct Range {
    pub first: usize,
    pub count: usize,
}

impl Range {
    // Line a is in the range. No sum of the two numbers is made, for they are as wide as a sum would be.
    #[tactic(auto, using(crate::proofs::Ranges::before_inside, crate::proofs::Ranges::from_inside))]
    pub fn has(self, a: usize) -> bool
        ensures { result ≡ inside self a }
    {
        if a < self.first {
            return false;
        }
        a - self.first < self.count
    }

    // The range is empty, or all its lines are below n.
    #[tactic(auto, using(crate::proofs::Ranges::starts_beyond, crate::proofs::Ranges::ends_within), unfolding(crate::specs::Range::ends_by))]
    pub fn ends_by(self, n: usize) -> bool
        ensures { result ≡ ends_by self n }
    {
        if self.count == 0 {
            return true;
        }
        if n < self.first {
            return false;
        }
        self.count <= n - self.first
    }
}
