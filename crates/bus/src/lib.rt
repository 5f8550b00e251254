// The bus: each holder of a line that is asked answers a command from its own part of the three tables.
#![tactic(auto)]

ghost use Rattle.std.specs.Prelude.{◌≡◌, ◌+◌, ◌*◌, ◌^◌, ◌<◌};
ghost use Rattle.ports.specs.Bytes.{tables_in, Filled};
ghost use Rattle.ports.specs.Entry.{Room};
ghost use Rattle.ports.specs.Line.{Placed};
ghost use Rattle.ports.specs.Masks.{in_mask, OfHolders, AllStates};
ghost use Rattle.bus.specs.Bus.{states_answered, words_answered, answered};

use ports::line::Line;
use ports::{entry, mask};
use protocol::rules::{self, Bus};
use protocol::state;

// A holder's answer, from its own part of the tables, at the line's index there; w is the line's new word. No tag is read or changed: who is
// asked is said by a mask.
#[tactic(auto, unfolding(crate::specs::Bus::states_answered, crate::specs::Bus::words_answered))]
fn answer(tags: &mut [u8], states: &mut [u8], words: &mut [u8], index: usize, bus: Bus, w: u64)
    requires { Room tags.old states.old words.old index }
    ensures tags_unchanged { tags.new ≡ tags.old }
    ensures states_after { states.new ≡ states_answered bus index states.old }
    ensures words_after { words.new ≡ words_answered bus w index words.old }
{
    let next = rules::snooped(bus, state::or_invalid(states[index]));
    states[index] = u8::from(next);
    if bus.hands_word() {
        entry::put_word(words, index, w);
    }
}

// The same in the whole tables; the port's part starts at entry from.
fn answer_from(
    tags: &mut [u8],
    states: &mut [u8],
    words: &mut [u8],
    from: usize,
    index: usize,
    bus: Bus,
    w: u64,
)
    requires { Room tags.old states.old words.old (from + index) }
    ensures tags_unchanged { tags.new ≡ tags.old }
    ensures states_after { states.new ≡ states_answered bus (from + index) states.old }
    ensures words_after { words.new ≡ words_answered bus w (from + index) words.old }
{
    let tags_from = 4 * from;
    let words_from = 8 * from;
    answer(
        &mut tags[tags_from..],
        &mut states[from..],
        &mut words[words_from..],
        index,
        bus,
        w,
    );
}

// The number of the entry that lies so many ports after entry k, at the same index: sets more for each port.
fn passed(k: usize, sets: usize, ports: usize) -> usize
    requires { ports * sets + k < 2 ^ 64 }
    ensures { result ≡ ports * sets + k }
{
    let mut at = k;
    for p in 0..ports {
        at += sets;
    }
    at
}

// Every port of the mask answers a bus command. The number of the port's entry runs from the index on: sets more for each port, asked or
// passed over. The port's part of the tables starts the index before it.
fn broadcast(
    tags: &mut [u8],
    states: &mut [u8],
    words: &mut [u8],
    line: Line,
    asked: u64,
    bus: Bus,
    w: u64,
)
    requires filled { Filled line.shape tags.old states.old words.old }
    requires placed { Placed line }
    requires all_states { AllStates line.shape line.number states.old }
    requires of_holders { OfHolders line.shape (tables_in line.shape tags.old states.old words.old) line.number asked }
    ensures { tables_in line.shape tags.new states.new words.new
        ≡ answered line.shape (tables_in line.shape tags.old states.old words.old) line.number
        (in_mask asked) bus w line.shape.ports }
{
    let sets = line.shape.sets;
    let mut rest = asked;
    let mut k = line.place.index;
    // Ports leave the mask until none is left: no index is counted that a `for` could count.
    while rest != 0 {
        let skipped = mask::lowest_port(rest);
        rest = (rest >> skipped) / 2;
        k = passed(k, sets, skipped);
        let from = k - line.place.index;
        answer_from(tags, states, words, from, line.place.index, bus, w);
        k += sets;
    }
}

// Sends a command to the ports of a mask, unless there is nobody to hear it or nothing to say.
pub fn ask(
    tags: &mut [u8],
    states: &mut [u8],
    words: &mut [u8],
    line: Line,
    asked: u64,
    bus: Bus,
    w: u64,
)
    requires filled { Filled line.shape tags.old states.old words.old }
    requires placed { Placed line }
    requires all_states { AllStates line.shape line.number states.old }
    requires of_holders { OfHolders line.shape (tables_in line.shape tags.old states.old words.old) line.number asked }
    ensures { tables_in line.shape tags.new states.new words.new
        ≡ answered line.shape (tables_in line.shape tags.old states.old words.old) line.number
        (in_mask asked) bus w line.shape.ports }
{
    if (asked != 0) & !bus.is_quiet() {
        broadcast(tags, states, words, line, asked, bus, w);
    }
}
