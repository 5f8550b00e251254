// A read, a write or a swap by a port: decided, and then carried out.
ghost use Rattle.std.specs.Prelude.{◌≡◌, true, ◌<◌};
ghost use Rattle.model.specs.Tables.{column_sound};
ghost use Rattle.model.specs.Step.{result as step_result, accessed};
ghost use Rattle.ports.specs.Bytes.{bytes, model_in, tables_in, Fitting};
ghost use Rattle.ports.specs.Line.{Placed};
ghost use Rattle.ports.specs.Masks.{AllStates, masks_of};
ghost use Rattle.caches.specs.Carried.{Founded, carried};

use crate::memory;
use decision::Decision;
use model::answer::Answer;
use ports::entry;
use ports::line::Line;
use ports::survey::Masks;
use protocol::state::Mode;
use words::access::Access;

// Carries a decision out: the other holders answer, the own entry is put, and at most two words are stored.
fn carry_out(
    memory: &mut [u8],
    tags: &mut [u8],
    states: &mut [u8],
    words: &mut [u8],
    line: Line,
    i: usize,
    d: Decision,
)
    requires fitting { Fitting line.shape (bytes memory.old tags.old states.old words.old) }
    requires placed { Placed line }
    requires port { i < line.shape.ports }
    requires all_states { AllStates line.shape line.number states.old }
    requires founded { Founded line.shape (tables_in line.shape tags.old states.old words.old) line.number d }
    ensures { model_in line.shape (bytes memory.new tags.new states.new words.new)
        ≡ carried line.shape
        (model_in line.shape (bytes memory.old tags.old states.old words.old))
        i line.number d }
{
    let shape = line.shape;
    let e = d.entry;
    bus::ask(tags, states, words, line, d.others, d.bus, e.word);
    let at = shape.entry_number(i, line.place.index);
    entry::put_entry(shape, tags, states, words, at, e);
    memory::store(memory, shape.lines, d.evicted);
    memory::store(memory, shape.lines, d.stored);
}

// The access by port i, from what the ports say of the line; every entry is sound.
pub fn access_line(
    memory: &mut [u8],
    tags: &mut [u8],
    states: &mut [u8],
    words: &mut [u8],
    line: Line,
    i: usize,
    said: Masks,
    acc: Access,
    m: Mode,
) -> Answer
    requires fitting { Fitting line.shape (bytes memory.old tags.old states.old words.old) }
    requires placed { Placed line }
    requires port { i < line.shape.ports }
    requires said { said ≡ masks_of line.shape (tables_in line.shape tags.old states.old words.old) line.number }
    requires sound { column_sound line.shape (tables_in line.shape tags.old states.old words.old) line.number ≡ true }
    ensures { step_result result (model_in line.shape (bytes memory.new tags.new states.new words.new))
        ≡ accessed line.shape
        (model_in line.shape (bytes memory.old tags.old states.old words.old))
        i line.number acc m }
{
    let d = decision::decide(memory, tags, states, words, line, i, said, acc, m);
    carry_out(memory, tags, states, words, line, i, d);
    d.answer
}
