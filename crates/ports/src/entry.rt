// One entry of the tables in bytes.
ghost use Rattle.std.specs.Prelude.{◌≡◌, ◌+◌, ◌*◌, ◌<◌, ◌≤◌, length};
ghost use Rattle.std.proofs.lemmas.List.Edits.{sets};
ghost use Rattle.endian.specs.Little.{bytes_of};
ghost use Rattle.shape.specs.Shape.{entries};
ghost use Rattle.ports.specs.Bytes.{tables_in, Filled};
ghost use Rattle.ports.specs.Entry.{tag_in, word_in, entry_at, put_at};

use shape::Shape;

#[derive(Clone, Copy)]
pub struct Entry {
    pub tag: u32,
    pub byte: u8,
    pub word: u64,
}

pub fn tag_at(tags: &[u8], k: usize) -> u32
    requires { 4 * k + 4 ≤ length tags.now }
    ensures { result ≡ tag_in tags.now k }
{
    endian::read::<4>(tags, 4 * k) as u32
}

pub fn word_at(words: &[u8], k: usize) -> u64
    requires { 8 * k + 8 ≤ length words.now }
    ensures { result ≡ word_in words.now k }
{
    endian::read::<8>(words, 8 * k)
}

pub fn put_word(words: &mut [u8], k: usize, x: u64)
    requires { 8 * k + 8 ≤ length words.old }
    ensures { words.new ≡ sets words.old (8 * k) (bytes_of 8 x) }
{
    endian::write::<8>(words, 8 * k, x);
}

// Entry k of a shape's tables.
pub fn entry_at(shape: Shape, tags: &[u8], states: &[u8], words: &[u8], k: usize) -> Entry
    requires filled { Filled shape tags.now states.now words.now }
    requires entry { k < entries shape }
    ensures { result ≡ entry_at (tables_in shape tags.now states.now words.now) k }
{
    Entry {
        tag: tag_at(tags, k),
        byte: states[k],
        word: word_at(words, k),
    }
}

// Puts entry k.
pub fn put_entry(
    shape: Shape,
    tags: &mut [u8],
    states: &mut [u8],
    words: &mut [u8],
    k: usize,
    e: Entry,
)
    requires filled { Filled shape tags.old states.old words.old }
    requires entry { k < entries shape }
    ensures { tables_in shape tags.new states.new words.new
        ≡ put_at (tables_in shape tags.old states.old words.old) k e }
{
    endian::write::<4>(tags, 4 * k, u64::from(e.tag));
    states[k] = e.byte;
    put_word(words, k, e.word);
}

// The home line of an entry with the tag, at an index.
pub fn home_of(tag: u32, sets: usize, index: usize) -> usize
    requires { (sets ≤ 64) × (index < sets) }
    ensures { result ≡ tag * sets + index }
{
    (tag as usize) * sets + index
}
