// A device: it reads main memory behind the caches, and the holders of a line hear when it writes.
ghost use Rattle.std.specs.Prelude.{◌≡◌, true, ◌+◌, ◌*◌, ◌≤◌, length};
ghost use Rattle.model.specs.Tables.{column_sound};
ghost use Rattle.model.specs.Step.{result as step_result, accepted, device_written};
ghost use Rattle.ports.specs.Bytes.{bytes, model_in, tables_in, Fitting};
ghost use Rattle.ports.specs.Entry.{word_in};
ghost use Rattle.ports.specs.Line.{Placed};
ghost use Rattle.ports.specs.Masks.{masks_of};

use crate::memory;
use decision::{Store, supply};
use model::answer::Answer;
use ports::entry;
use ports::line::Line;
use ports::survey::Masks;
use protocol::rules::Bus;
use words::word;

// A device read of line a.
pub fn device_read(memory: &[u8], a: usize) -> Answer
    requires { 8 * a + 8 ≤ length memory.now }
    ensures { result ≡ accepted (word_in memory.now a) 0 1 0 }
{
    answers::accept(entry::word_at(memory, a), false, true, false, false)
}

// A device write, from what the ports say of the line; every entry is sound. The holders hear the command as from a port.
pub fn device_write(
    memory: &mut [u8],
    tags: &mut [u8],
    states: &mut [u8],
    words: &mut [u8],
    line: Line,
    said: Masks,
    mask: u8,
    x: u64,
) -> Answer
    requires fitting { Fitting line.shape (bytes memory.old tags.old states.old words.old) }
    requires placed { Placed line }
    requires said { said ≡ masks_of line.shape (tables_in line.shape tags.old states.old words.old) line.number }
    requires sound { column_sound line.shape (tables_in line.shape tags.old states.old words.old) line.number ≡ true }
    ensures { step_result result (model_in line.shape (bytes memory.new tags.new states.new words.new))
        ≡ device_written line.shape
        (model_in line.shape (bytes memory.old tags.old states.old words.old))
        line.number mask x }
{
    let dirty = said.owners != 0;
    let supplied = supply::supplied_word(memory, tags, states, words, line, said.owners);
    let merge = word::merged(mask, supplied, x);
    let w = merge.word;
    bus::ask(tags, states, words, line, said.holders, Bus::Invalidate, w);
    let stored = Store {
        line: line.number,
        word: w,
    };
    memory::store(memory, line.shape.lines, Some(stored));
    answers::accept(0, false, !dirty, false, true)
}
