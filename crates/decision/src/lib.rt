// What an access comes to, decided on values before anything is written.
#![tactic(auto)]

pub mod supply;

ghost use Rattle.std.specs.Prelude.{◌≡◌, true, cond, ◌<◌};
ghost use Rattle.protocol.specs.State.{state_of, or_invalid};
ghost use Rattle.model.specs.Tables.{owns, column_sound};
ghost use Rattle.model.specs.Step.{word_supplied};
ghost use Rattle.ports.specs.Bytes.{bytes, model_in, tables_in, Fitting};
ghost use Rattle.ports.specs.Line.{Placed};
ghost use Rattle.ports.specs.Masks.{ports_from, masks_of};
ghost use Rattle.decision.specs.Decision.{decided};

use model::answer::Answer;
use ports::entry;
use ports::entry::Entry;
use ports::line::Line;
use ports::survey::Masks;
use protocol::rules::{self, Bus};
use protocol::state::{self, Mode, State};
use words::access::{self, Access};

// A word for main memory, and its line.
#[derive(Clone, Copy)]
pub struct Store {
    pub line: usize,
    pub word: u64,
}

// The own entry afterwards; the other holders, a bit for each port, and the bus command that they hear; the home line and the word of the own
// entry as it was, which are stored where an owner is evicted; what is stored of the line; and the answer.
#[derive(Clone, Copy)]
pub struct Decision {
    pub entry: Entry,
    pub others: u64,
    pub bus: Bus,
    pub victim: Store,
    pub evicted: Option<Store>,
    pub stored: Option<Store>,
    pub answer: Answer,
}

// The word that a port finds: its own on a hit, else the one that is supplied. Whether it is a hit, and who the owners are, is given.
fn find_word(
    memory: &[u8],
    tags: &[u8],
    states: &[u8],
    words: &[u8],
    line: Line,
    hit: bool,
    own: u64,
    owners: u64,
) -> u64
    requires fitting { Fitting line.shape (bytes memory.now tags.now states.now words.now) }
    requires placed { Placed line }
    requires owners { owners ≡ ports_from (owns line.shape (tables_in line.shape tags.now states.now words.now) line.number) 0
        line.shape.ports }
    ensures { result ≡ cond hit own (word_supplied line.shape
        (model_in line.shape (bytes memory.now tags.now states.now words.now)) line.number) }
{
    if hit {
        return own;
    }
    supply::supplied_word(memory, tags, states, words, line, owners)
}

// The state that a port sees: its own entry's, from the byte, on a hit, else I.
fn find_state(hit: bool, byte: u8) -> State
    ensures { result ≡ cond hit (or_invalid (state_of byte)) State.I }
{
    if hit {
        state::or_invalid(byte)
    } else {
        State::I
    }
}

// What an access by port i comes to, from what the ports say of the line; every entry is sound.
pub fn decide(
    memory: &[u8],
    tags: &[u8],
    states: &[u8],
    words: &[u8],
    line: Line,
    i: usize,
    said: Masks,
    acc: Access,
    m: Mode,
) -> Decision
    requires fitting { Fitting line.shape (bytes memory.now tags.now states.now words.now) }
    requires placed { Placed line }
    requires port { i < line.shape.ports }
    requires said { said ≡ masks_of line.shape (tables_in line.shape tags.now states.now words.now) line.number }
    requires sound { column_sound line.shape (tables_in line.shape tags.now states.now words.now) line.number ≡ true }
    ensures { result ≡ decided line.shape
        (model_in line.shape (bytes memory.now tags.now states.now words.now))
        i line.number acc m }
{
    let sets = line.shape.sets;
    let index = line.place.index;
    let at = line.shape.entry_number(i, index);
    let e = entry::entry_at(line.shape, tags, states, words, at);
    let own = (said.holders >> i) % 2;
    let hit = own == 1;
    let others = said.holders - (own << i);
    let dirty = said.owners != 0;
    let found = find_word(memory, tags, states, words, line, hit, e.word, said.owners);
    let effect = access::effect_at(acc, found);
    let outcome = effect.outcome;
    let seen = find_state(hit, e.byte);
    let r = rules::own_rule(outcome, m, others != 0, dirty, seen);
    let fetches = !hit & !dirty;
    let evicts = !hit & state::is_owner(e.byte);
    let home = entry::home_of(e.tag, sets, index);
    let victim = Store {
        line: home,
        word: e.word,
    };
    Decision {
        entry: Entry {
            tag: line.place.tag,
            byte: u8::from(r.own),
            word: effect.word,
        },
        others,
        bus: r.bus,
        victim,
        evicted: evicts.then_some(victim),
        stored: r.stores.then_some(Store {
            line: line.number,
            word: effect.word,
        }),
        answer: answers::accept(effect.value, effect.swapped, fetches, evicts, r.stores),
    }
}
