// One look at every port's entry for a line.
ghost use Rattle.std.specs.Prelude.{◌≡◌, true, ℕ, ◌+◌, ◌*◌, ◌-◌, ◌/◌, ◌%◌, ◌^◌, ◌<◌, get_or};
ghost use Rattle.refusals.specs.declared.Refusal.{Refusal};
ghost use Rattle.endian.specs.Little.{numbers};
ghost use Rattle.shape.specs.Shape.{in_range, entries};
ghost use Rattle.ports.specs.Bytes.{tables_in, Filled};
ghost use Rattle.ports.specs.Line.{Placed};
ghost use Rattle.ports.specs.Masks.{look_lanes, sound_masks, look_of};

use crate::line::Line;
use crate::{entry, line};
use protocol::state;
use refusals::Refusal;
use shape::{Place, Shape};
use words::choose;

// What the ports say of a line: those that hold it, and those that own it. Bit p is port p's.
#[derive(Clone, Copy)]
pub struct Masks {
    pub holders: u64,
    pub owners: u64,
}

// What an entry with the tag t and the state byte b says, in two lanes of 16 bits: bit 0 that it holds the line, bit 16 that it owns it or is
// unsound. An owner holds the line and an unsound entry does not, so that bit 16 by itself is the mark of an unsound one: of the three lanes
// of `look_lanes` the third is laid over the second. Bit b of a row's lanes says it of byte b: for the line's tag the row is the match's own,
// so laid; for another tag below the limit only what is no state counts; for one not below it, all but I. A byte from 16 on is no state, as
// 15 is none, and is looked up as 15. No branch depends on the entry: what tables hold follows no pattern.
fn lanes_at(place: Place, t: u32, b: u8) -> u64
    requires { place.tag < place.limit }
    ensures { result ≡ look_lanes place t b % 4294967296 + look_lanes place t b / 4294967296 * 65536 }
{
    let own = state::state_row();
    let near = own / 4294967296 * 65536;
    let here = near + own % 4294967296;
    let far = near + own % 65536 * 65536;
    let away = choose::choose(t < place.limit, near, far);
    let row = choose::choose(t == place.tag, here, away);
    let x = row >> choose::choose(b < 16, b, 15);
    x % 2 + x / 65536 % 2 * 65536
}

fn entry_lanes(tags: &[u8], states: &[u8], words: &[u8], line: Line, k: usize) -> u64
    requires filled { Filled line.shape tags.now states.now words.now }
    requires placed { Placed line }
    requires entry { k < entries line.shape }
    ensures { (let n : ℕ = look_lanes line.place (get_or (numbers 4 (entries line.shape) tags.now) k 0)
        (get_or states.now k 0) in result ≡ n % 4294967296 + n / 4294967296 * 65536) }
{
    lanes_at(line.place, entry::tag_at(tags, k), states[k])
}

// A number rotated right by one bit: its lowest bit becomes its highest.
fn rotated_right(x: u64) -> u64
    ensures { result ≡ x / 2 + x % 2 * 2 ^ 63 }
{
    x / 2 + x % 2 * 9223372036854775808
}

// A number rotated left by n bits: its n highest bits become its lowest.
fn rotated_left(x: u64, n: usize) -> u64
    requires { (0 < n) × (n < 64) }
    ensures { result ≡ x % 2 ^ (64 - n) * 2 ^ n + x / 2 ^ (64 - n) }
{
    (x << n) + (x >> (64 - n))
}

// Asks every port, in one pass. The number of the port's entry runs beside the port, from the index on: sets more for each port. What a port
// says comes in at the lanes' lowest bits; all is rotated right by one bit for each port, and left at the end by as many bits as there are
// ports, so that port p's bit is bit p. The masks are an error where an entry is unsound. No word is read: the words are lent so that what is
// said is said of the whole tables.
fn survey_ports(tags: &[u8], states: &[u8], words: &[u8], line: Line) -> Result<Masks, Masks>
    requires filled { Filled line.shape tags.now states.now words.now }
    requires placed { Placed line }
    ensures { result ≡ sound_masks line.shape (tables_in line.shape tags.now states.now words.now) line.number }
{
    let ports = line.shape.ports;
    let mut rotated = 0u64;
    let mut k = line.place.index;
    for p in 0..ports {
        let seen = entry_lanes(tags, states, words, line, k);
        rotated = rotated_right(rotated + seen);
        k += line.shape.sets;
    }
    let sum = rotated_left(rotated, ports);
    let holders = sum % 65536;
    let marked = sum / 65536;
    let owners = marked & holders;
    if owners != marked {
        return Err(Masks { holders, owners });
    }
    Ok(Masks { holders, owners })
}

// A line, and what the ports say of it.
#[derive(Clone, Copy)]
pub struct Look {
    pub line: Line,
    pub said: Masks,
}

// A look that met an unsound entry.
#[derive(Clone, Copy)]
pub struct Unsound {
    pub look: Look,
}

// The refusal of an order whose look met one.
impl From<Unsound> for Refusal {
    ghost from_gives = { λ u r. r ≡ Refusal.Entry };

    fn from(_: Unsound) -> Refusal {
        Refusal::Entry
    }
}

// Looks at line a of a shape. Where one of the ports' entries is unsound the look is an error, which says as much of the line.
pub fn look_at(
    shape: Shape,
    tags: &[u8],
    states: &[u8],
    words: &[u8],
    a: usize,
) -> Result<Look, Unsound>
    requires filled { Filled shape tags.now states.now words.now }
    requires there { (in_range shape ≡ true) × (a < shape.lines) }
    ensures { result ≡ look_of shape (tables_in shape tags.now states.now words.now) a }
{
    let line = line::line_of(shape, a);
    match survey_ports(tags, states, words, line) {
        Ok(said) => Ok(Look { line, said }),
        Err(said) => Err(Unsound {
            look: Look { line, said },
        }),
    }
}
