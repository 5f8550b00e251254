// The audit of main memory and the tables in bytes, entry by entry: its cost follows the entries, not the lines. What two holders of a line
// ask of each other is asked once, at the turn of the higher port.
#![tactic(auto)]

mod lent;

ghost use Rattle.std.specs.Prelude.{◌≡◌, ◌<◌};
ghost use Rattle.endian.specs.Little.{numbers};
ghost use Rattle.protocol.specs.State.{state_of};
ghost use Rattle.shape.specs.Shape.{entries};
ghost use Rattle.model.specs.Audit.{audit};
ghost use Rattle.ports.specs.Bytes.{bytes, model_in, tables_in, Fitting};
ghost use Rattle.audit.specs.Entries.{class_of, is_owner, held_at, compatible, goes_with, pair_passes, below_pass, owns_at, owned_at, entry_passes, index_passes};

use lent::Lent;
use ports::entry;
use shape::Shape;

// One entry of the tables, its state by its class.
#[derive(Clone, Copy)]
struct Held {
    tag: u32,
    class: u8,
    word: u64,
}

// The classes of the bytes below 13, each at its byte. (A match on the byte would be a jump, mispredicted where states are mixed.)
const CLASSES: [u8; 13] = [0, 8, 10, 1, 1, 1, 1, 1, 1, 9, 11, 13, 15];

// The class of a byte's state, as a number: 1 for a byte that is no state; 0 for I; else 8, and 1 more for write back, 2 more for E or M,
// 4 more for O or M.
#[tactic(auto, using(crate::proofs::Classes::class_at, crate::proofs::Classes::class_beyond))]
fn class_of(b: u8) -> u8
    ensures { result ≡ class_of (state_of b) }
{
    let k = usize::from(b);
    if k < CLASSES.len() { CLASSES[k] } else { 1 }
}

// The class of O or M.
fn is_owner(n: u8) -> bool
    ensures { result ≡ is_owner n }
{
    n / 4 % 2 == 1
}

// The classes n and m of two holders of one line are compatible: of one mode, neither E or M, and not both O or M.
#[tactic(auto, unfolding(crate::specs::Entries::compatible))]
fn compatible(n: u8, m: u8) -> bool
    ensures { result ≡ compatible n m }
{
    let shared = !((n / 2 % 2 == 1) | (m / 2 % 2 == 1));
    let owned_once = !(is_owner(n) & is_owner(m));
    (m % 2 == n % 2) & shared & owned_once
}

// Entry e, which isn't I, goes with the entry f of another port that has its tag: f is I (or no state, which fails at its own port); or
// they have one word and their classes are compatible.
#[tactic(auto, unfolding(crate::specs::Entries::goes_with))]
fn goes_with(e: Held, f: Held) -> bool
    ensures { result ≡ goes_with e f }
{
    if f.class < 8 {
        return true;
    }
    (f.word == e.word) & compatible(e.class, f.class)
}

impl Lent<'_> {
    // Entry k of the tables.
    fn held_at(&self, k: usize) -> Held
        requires { k < entries self.now.shape }
        ensures { result ≡ held_at (tables_in self.now.shape self.now.tags.now self.now.states.now self.now.words.now) k }
    {
        Held {
            tag: entry::tag_at(self.tags, k),
            class: class_of(self.states[k]),
            word: entry::word_at(self.words, k),
        }
    }

    // Entry e, which isn't I, goes with another port's entry at its index, by the number k: it is of another line, or goes with e.
    fn pair_passes(&self, k: usize, e: Held) -> bool
        requires { k < entries self.now.shape }
        ensures { result ≡ pair_passes e (held_at (tables_in self.now.shape self.now.tags.now self.now.states.now self.now.words.now) k) }
    {
        if entry::tag_at(self.tags, k) != e.tag {
            return true;
        }
        goes_with(e, self.held_at(k))
    }

    // Entry e goes with the entry at index x of every port below p.
    fn below_pass(&self, x: usize, p: usize, e: Held) -> bool
        requires { (x < self.now.shape.sets) × (p < self.now.shape.ports) }
        ensures { result ≡ below_pass self.now.shape (tables_in self.now.shape self.now.tags.now self.now.states.now self.now.words.now) x p e }
    {
        for q in 0..p {
            let k = self.shape.entry_number(q, x);
            if !self.pair_passes(k, e) {
                return false;
            }
        }
        true
    }

    // Entry k has the tag given and is O or M.
    fn owns_at(&self, k: usize, tag: u32) -> bool
        requires { k < entries self.now.shape }
        ensures { result ≡ owns_at (numbers 4 (entries self.now.shape) self.now.tags.now) self.now.states.now tag k }
    {
        (entry::tag_at(self.tags, k) == tag) & is_owner(class_of(self.states[k]))
    }

    // Some port's entry at index x has the tag given and is O or M.
    fn owned_at(&self, x: usize, tag: u32) -> bool
        requires { x < self.now.shape.sets }
        ensures { result ≡ owned_at self.now.shape (numbers 4 (entries self.now.shape) self.now.tags.now) self.now.states.now x tag }
    {
        for port in 0..self.shape.ports {
            let k = self.shape.entry_number(port, x);
            if self.owns_at(k, tag) {
                return true;
            }
        }
        false
    }

    // Port p's entry at index x passes: it is I; or its home line is there, it goes with the entries of the ports below p, and memory has its
    // word, or it or some port's entry owns the line.
    fn entry_passes(&self, x: usize, p: usize) -> bool
        requires { (x < self.now.shape.sets) × (p < self.now.shape.ports) }
        ensures { result ≡ entry_passes self.now.shape
            (model_in self.now.shape (bytes self.now.memory.now self.now.tags.now self.now.states.now self.now.words.now)) x p }
    {
        let k = self.shape.entry_number(p, x);
        let e = self.held_at(k);
        if e.class < 8 {
            return e.class == 0;
        }
        let home = entry::home_of(e.tag, self.shape.sets, x);
        if home >= self.shape.lines {
            return false;
        }
        if !self.below_pass(x, p, e) {
            return false;
        }
        if (e.word == entry::word_at(self.memory, home)) | is_owner(e.class) {
            return true;
        }
        self.owned_at(x, e.tag)
    }

    // Every port's entry at index x passes.
    fn index_passes(&self, x: usize) -> bool
        requires { x < self.now.shape.sets }
        ensures { result ≡ index_passes self.now.shape
            (model_in self.now.shape (bytes self.now.memory.now self.now.tags.now self.now.states.now self.now.words.now)) x }
    {
        for p in 0..self.shape.ports {
            if !self.entry_passes(x, p) {
                return false;
            }
        }
        true
    }
}

// The audit of memory and tables that the shape fits: every entry passes.
pub fn audit_tables(shape: Shape, memory: &[u8], tags: &[u8], states: &[u8], words: &[u8]) -> bool
    requires { Fitting shape (bytes memory.now tags.now states.now words.now) }
    ensures { result ≡ audit shape (model_in shape (bytes memory.now tags.now states.now words.now)) }
{
    let lent = Lent {
        shape,
        memory,
        tags,
        states,
        words,
    };
    for x in 0..shape.sets {
        if !lent.index_passes(x) {
            return false;
        }
    }
    true
}
