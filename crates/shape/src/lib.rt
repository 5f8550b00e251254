// The shape of a model, with the limits, sizes and places that follow from it, its ranges, and the refusals of what is lent.
#![tactic(auto)]

pub mod range;

ghost use Rattle.std.specs.Prelude.{◌≡◌, true, ◌<◌, ◌≤◌, ◌+◌, ◌-◌, ◌/◌, ◌%◌, ◌^◌};
ghost use Rattle.refusals.specs.Numbers.{refusal_in};
ghost use Rattle.shape.specs.Shape.{shape_of, unranged, is_sets, in_range, entries, entry_number, sizes_of};
ghost use Rattle.shape.specs.Shape.{fits, ranges_empty, ranges_end, fit_refusal, refusal_of, place_of};

use range::Range;
use refusals::Refusal;

// How many ports there are, how many sets each port's direct-mapped cache has, and how many lines main memory has; the lines on which every
// access runs write back, and those on which it runs write through, if they are not scratch. (Document 01's word shape.)
#[derive(Clone, Copy, Debug, PartialEq, Eq)]
pub struct Shape {
    pub ports: usize,
    pub sets: usize,
    pub lines: usize,
    pub scratch: Range,
    pub device: Range,
}

// How long main memory and the three tables are.
#[derive(Clone, Copy, Debug, PartialEq, Eq)]
pub struct Sizes {
    pub memory: usize,
    pub tags: usize,
    pub states: usize,
    pub data: usize,
}

// Where a line lies: its index and tag, and the number of lines with that index. An entry at the index has a home line below lines
// exactly where its tag is below this limit.
#[derive(Clone, Copy, Debug, PartialEq, Eq)]
pub struct Place {
    pub index: usize,
    pub tag: u32,
    pub limit: u32,
}

impl Shape {
    pub const MAX_PORTS: usize = 8;

    // The sets are 1, 2, 4, 8, 16, 32 or this many.
    pub const MAX_SETS: usize = 64;

    pub const MAX_LINES: usize = 4096;

    // What each table has at most, in entries; and main memory and the tables in bytes.
    pub const MAX_ENTRIES: usize = Shape::MAX_PORTS * Shape::MAX_SETS;

    pub const MAX_MEMORY_BYTES: usize = 8 * Shape::MAX_LINES;

    pub const MAX_TAGS_BYTES: usize = 4 * Shape::MAX_ENTRIES;

    pub const MAX_STATES_BYTES: usize = Shape::MAX_ENTRIES;

    pub const MAX_DATA_BYTES: usize = 8 * Shape::MAX_ENTRIES;

    // A shape by its seven numbers, in the order in which a host gives them.
    pub fn new(
        ports: usize,
        sets: usize,
        lines: usize,
        scratch_first: usize,
        scratch_count: usize,
        device_first: usize,
        device_count: usize,
    ) -> Shape
        ensures { result ≡ shape_of ports sets lines scratch_first scratch_count device_first device_count }
    {
        Shape {
            ports,
            sets,
            lines,
            scratch: Range {
                first: scratch_first,
                count: scratch_count,
            },
            device: Range {
                first: device_first,
                count: device_count,
            },
        }
    }

    // A shape whose two ranges are empty.
    pub fn unranged(ports: usize, sets: usize, lines: usize) -> Shape
        ensures { result ≡ unranged ports sets lines }
    {
        Shape::new(ports, sets, lines, 0, 0, 0, 0)
    }

    // The sets are a power of two up to the limit.
    fn has_sets(self) -> bool
        ensures { result ≡ is_sets self.sets }
    {
        matches!(self.sets, 1 | 2 | 4 | 8 | 16 | 32 | 64)
    }

    // Ports, sets and lines are within their limits.
    #[tactic(auto, unfolding(crate::specs::Shape::in_range))]
    pub fn is_in_range(self) -> bool
        ensures { result ≡ in_range self }
    {
        let ports = (1 <= self.ports) & (self.ports <= Shape::MAX_PORTS);
        let lines = (1 <= self.lines) & (self.lines <= Shape::MAX_LINES);
        ports & self.has_sets() & lines
    }

    // The entries of each of the three tables.
    pub fn entries(self) -> usize
        requires { in_range self ≡ true }
        ensures { result ≡ entries self }
    {
        self.ports * self.sets
    }

    // The number of port p's entry at an index: the port's entries lie together, one for each index.
    pub fn entry_number(self, p: usize, index: usize) -> usize
        requires shape { in_range self ≡ true }
        requires there { (p < self.ports) × (index < self.sets) }
        ensures { (result ≡ entry_number self p index) × (result < entries self) }
    {
        p * self.sets + index
    }

    // What main memory and the tables take in bytes: eight for a word, four for a tag, one for a state.
    pub fn sizes(self) -> Sizes
        requires { in_range self ≡ true }
        ensures { result ≡ sizes_of self }
    {
        let n = self.entries();
        Sizes {
            memory: 8 * self.lines,
            tags: 4 * n,
            states: n,
            data: 8 * n,
        }
    }

    // A memory and tables of these sizes, in words and entries, are those of the shape.
    #[tactic(auto, unfolding(crate::specs::Shape::fits))]
    fn is_fitting(self, lent: Sizes) -> bool
        requires { in_range self ≡ true }
        ensures { result ≡ fits self lent.memory lent.tags lent.states lent.«data» }
    {
        let n = self.entries();
        (lent.memory == self.lines) & (lent.tags == n) & (lent.states == n) & (lent.data == n)
    }

    // Both ranges are empty. One test, for it is on the way of every step.
    pub fn has_no_ranges(self) -> bool
        ensures { result ≡ ranges_empty self }
    {
        (self.scratch.count == 0) & (self.device.count == 0)
    }

    // Neither range ends beyond lines.
    fn ranges_end(self) -> bool
        ensures { result ≡ ranges_end self }
    {
        if self.has_no_ranges() {
            return true;
        }
        self.scratch.ends_by(self.lines) & self.device.ends_by(self.lines)
    }

    // Lengths that do not fit are told first, then a range that ends beyond lines.
    #[tactic(auto, unfolding(crate::specs::Shape::fit_refusal))]
    pub fn check_fit(self, fit: bool) -> Result<(), Refusal>
        ensures { refusal_in result ≡ fit_refusal self fit }
    {
        if !fit {
            return Err(Refusal::Lengths);
        }
        if !self.ranges_end() {
            return Err(Refusal::Range);
        }
        Ok(())
    }

    // The shape, and then what is lent: main memory and tables of these sizes, in words and entries.
    #[tactic(auto, unfolding(crate::specs::Shape::refusal_of))]
    pub fn check(self, lent: Sizes) -> Result<(), Refusal>
        ensures { refusal_in result ≡ refusal_of self lent.memory lent.tags lent.states lent.«data» }
    {
        if !self.is_in_range() {
            return Err(Refusal::Shape);
        }
        self.check_fit(self.is_fitting(lent))
    }

    // The sets as a power of two.
    fn shift(self) -> usize
        requires { in_range self ≡ true }
        ensures { (2 ^ result ≡ self.sets) × (result ≤ 6) }
    {
        self.sets.trailing_zeros() as usize
    }

    // By shifts and the bits below the sets' own: no division on the way of a step, and no product here.
    pub fn place(self, a: usize) -> Place
        requires { (in_range self ≡ true) × (a < self.lines) }
        ensures { result ≡ place_of self a }
    {
        let k = self.shift();
        let most = self.sets - 1;
        let index = a & most;
        Place {
            index,
            tag: (a >> k) as u32,
            limit: ((self.lines + most - index) >> k) as u32,
        }
    }
}
