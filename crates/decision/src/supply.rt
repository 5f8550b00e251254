// The word of a line for one who doesn't hold it.
ghost use Rattle.std.specs.Prelude.{◌≡◌};
ghost use Rattle.model.specs.Tables.{owns};
ghost use Rattle.model.specs.Step.{word_supplied};
ghost use Rattle.ports.specs.Bytes.{bytes, model_in, tables_in, Fitting};
ghost use Rattle.ports.specs.Line.{Placed};
ghost use Rattle.ports.specs.Masks.{ports_from};

use ports::line::Line;
use ports::{entry, mask};

// The lowest-numbered owner's word, else memory's. Who the owners are is given: tags and states are lent for what is said of them.
#[tactic(auto, using(crate::proofs::Supplied::supplied_memory))]
pub fn supplied_word(
    memory: &[u8],
    tags: &[u8],
    states: &[u8],
    words: &[u8],
    line: Line,
    owners: u64,
) -> u64
    requires fitting { Fitting line.shape (bytes memory.now tags.now states.now words.now) }
    requires placed { Placed line }
    requires owners { owners ≡ ports_from (owns line.shape (tables_in line.shape tags.now states.now words.now) line.number) 0
        line.shape.ports }
    ensures { result ≡ word_supplied line.shape
        (model_in line.shape (bytes memory.now tags.now states.now words.now)) line.number }
{
    if owners == 0 {
        return entry::word_at(memory, line.number);
    }
    let p = mask::lowest_port(owners);
    entry::word_at(words, line.shape.entry_number(p, line.place.index))
}
