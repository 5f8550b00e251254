// Where a line's word stands, and the view of that word. Words are what finding was promised on, and a part of them is what the view hands back; the
// step is on bytes.
#![tactic(auto)]

ghost use Rattle.std.specs.Prelude.{◌≡◌, true, [], ◌∷◌, ◌<◌, get_or, length, Ok};
ghost use Rattle.shape.specs.Shape.{in_range, entries, entry_of};
ghost use Rattle.model.specs.Below.{lowest};
ghost use Rattle.model.specs.Tables.{model, sound, holds, column_sound};
ghost use Rattle.model.specs.Find.{found, holder_or, find, view};

use protocol::state;
use refusals::Refusal;
use shape::{Shape, Sizes};

// Every port's entry at the index of one line: slices of the lengths that the shape gives, a shape within its limits, and a line that is there.
#[derive(Clone, Copy)]
struct Column<'a> {
    shape: Shape,
    tags: &'a [u32],
    states: &'a [u8],
    line: usize,
    ghost range: { in_range shape ≡ true },
    ghost below: { line < shape.lines },
    ghost tags_fit: { length tags.now ≡ entries shape },
    ghost states_fit: { length states.now ≡ entries shape },
}

impl Column<'_> {
    // Port p's entry is sound: its byte is a state, and it is I or has a home line below lines.
    #[tactic(auto, using(crate::proofs::Links::index_below, crate::proofs::Holders::sound_is))]
    fn sound_at(&self, p: usize) -> bool
        requires { p < self.now.shape.ports }
        ensures { result ≡ sound self.now.shape (model [] self.now.tags.now self.now.states.now []) (entry_of self.now.shape self.now.line p) }
    {
        let at = self.shape.place(self.line);
        let k = self.shape.entry_number(p, at.index);
        let b = self.states[k];
        state::is_state(b) & (!state::is_valid(b) | (self.tags[k] < at.limit))
    }

    // Port p holds the line.
    #[tactic(auto, using(crate::proofs::Links::index_below))]
    fn holds_at(&self, p: usize) -> bool
        requires { p < self.now.shape.ports }
        ensures { result ≡ holds self.now.shape (model [] self.now.tags.now self.now.states.now []) self.now.line p }
    {
        let at = self.shape.place(self.line);
        let k = self.shape.entry_number(p, at.index);
        (self.tags[k] == at.tag) & state::is_valid(self.states[k])
    }

    // Every port's entry is sound.
    fn is_sound(&self) -> bool
        ensures { result ≡ column_sound self.now.shape (model [] self.now.tags.now self.now.states.now []) self.now.line }
    {
        for port in 0..self.shape.ports {
            if !self.sound_at(port) {
                return false;
            }
        }
        true
    }

    // The lowest-numbered port that holds the line, if any.
    fn first_holder(&self) -> Option<usize>
        ensures { found (Ok result)
            ≡ holder_or (lowest (holds self.now.shape (model [] self.now.tags.now self.now.states.now []) self.now.line) self.now.shape.ports) }
    {
        for p in 0..self.shape.ports {
            if self.holds_at(p) {
                return Some(p);
            }
        }
        None
    }
}

// Where the word of line a stands: at the lowest-numbered port that holds the line, or in memory, where there is none. What is lent is checked
// first, then the line, then the entries at its index.
pub fn find_line(
    shape: Shape,
    memory: &[u64],
    tags: &[u32],
    states: &[u8],
    data: &[u64],
    a: usize,
) -> Result<Option<usize>, Refusal>
    ensures { found result ≡ find shape (model memory.now tags.now states.now «data».now) a }
{
    shape.check(Sizes {
        memory: memory.len(),
        tags: tags.len(),
        states: states.len(),
        data: data.len(),
    })?;
    if shape.lines <= a {
        return Err(Refusal::Line);
    }
    let column = Column {
        shape,
        tags,
        states,
        line: a,
    };
    if !column.is_sound() {
        return Err(Refusal::Entry);
    }
    Ok(column.first_holder())
}

// One word of a slice.
fn one_word<'a>(s: &'a [u64], k: usize) -> &'a [u64]
    requires { k < length s.now }
    ensures { result.now ≡ get_or s.now k 0 ∷ [] }
{
    &s[k..k + 1]
}

// The one word that finding names, a part of the data table or of memory; nothing on a refusal.
pub fn view_line<'a>(
    shape: Shape,
    memory: &'a [u64],
    tags: &[u32],
    states: &[u8],
    data: &'a [u64],
    a: usize,
) -> &'a [u64]
    ensures { result.now ≡ view shape (model memory.now tags.now states.now «data».now) a }
{
    let Ok(holder) = find_line(shape, memory, tags, states, data, a) else {
        return &memory[0..0];
    };
    let Some(p) = holder else {
        return one_word(memory, a);
    };
    let at = shape.place(a);
    let k = shape.entry_number(p, at.index);
    one_word(data, k)
}
