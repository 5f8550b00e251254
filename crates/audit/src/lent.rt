// Main memory and the tables of a shape, as they are lent for the audit.
ghost use Rattle.std.specs.Prelude.{◌≡◌, true, length};
ghost use Rattle.shape.specs.Shape.{in_range, ranges_end, memory_bytes, tags_bytes, states_bytes, data_bytes};

use shape::Shape;

// Slices of the lengths that the shape gives; the shape is within its limits, and its ranges end within lines.
#[derive(Clone, Copy)]
pub struct Lent<'a> {
    pub shape: Shape,
    pub memory: &'a [u8],
    pub tags: &'a [u8],
    pub states: &'a [u8],
    pub words: &'a [u8],
    pub ghost range: { in_range shape ≡ true },
    pub ghost ends: { ranges_end shape ≡ true },
    pub ghost memory_fits: { length memory.now ≡ memory_bytes shape },
    pub ghost tags_fit: { length tags.now ≡ tags_bytes shape },
    pub ghost states_fit: { length states.now ≡ states_bytes shape },
    pub ghost words_fit: { length words.now ≡ data_bytes shape },
}
