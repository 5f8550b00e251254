// A flush by a port.
ghost use Rattle.std.specs.Prelude.{◌≡◌, true, cond, ◌<◌, set, length};
ghost use Rattle.protocol.specs.declared.state.State.TheVariants.{I};
ghost use Rattle.protocol.specs.State.{code};
ghost use Rattle.model.specs.Tables.{column_sound};
ghost use Rattle.model.specs.Step.{result as step_result, flushed};
ghost use Rattle.ports.specs.Bytes.{bytes, model_in, tables_in, Fitting};
ghost use Rattle.ports.specs.Line.{Placed};
ghost use Rattle.ports.specs.Masks.{masks_of};

use crate::memory;
use decision::Store;
use model::answer::Answer;
use ports::entry;
use ports::line::Line;
use ports::survey::Masks;
use protocol::state::State;

// An entry that may become I.
fn empty_if(states: &mut [u8], on: bool, k: usize)
    requires { k < length states.old }
    ensures { states.new ≡ cond on (set states.old k (code I)) states.old }
{
    if on {
        states[k] = u8::from(State::I);
    }
}

// The flush by port i, from what the ports say of the line; every entry is sound.
pub fn flush_line(
    memory: &mut [u8],
    tags: &[u8],
    states: &mut [u8],
    words: &[u8],
    line: Line,
    i: usize,
    said: Masks,
) -> Answer
    requires fitting { Fitting line.shape (bytes memory.old tags.now states.old words.now) }
    requires placed { Placed line }
    requires port { i < line.shape.ports }
    requires said { said ≡ masks_of line.shape (tables_in line.shape tags.now states.old words.now) line.number }
    requires sound { column_sound line.shape (tables_in line.shape tags.now states.old words.now) line.number ≡ true }
    ensures { step_result result (model_in line.shape (bytes memory.new tags.now states.new words.now))
        ≡ flushed line.shape
        (model_in line.shape (bytes memory.old tags.now states.old words.now))
        i line.number }
{
    let held = (said.holders >> i) % 2 == 1;
    let stores = (said.owners >> i) % 2 == 1;
    let at = line.shape.entry_number(i, line.place.index);
    let w = entry::word_at(words, at);
    empty_if(states, held, at);
    let stored = stores.then_some(Store {
        line: line.number,
        word: w,
    });
    memory::store(memory, line.shape.lines, stored);
    answers::accept(0, false, false, false, stores)
}
