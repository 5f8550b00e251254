// A model on the stack: its shape, main memory and the three tables. It starts with zeros, and is stepped and audited in place.
ghost use Rattle.std.specs.Prelude.{◌≡◌, true};
ghost use Rattle.shape.specs.Shape.{in_range, ranges_end};
ghost use Rattle.model.specs.Audit.{audit};
ghost use Rattle.model.specs.Step.{result as step_result, step};
ghost use Rattle.decode.specs.Order.{order};
ghost use Rattle.replay.specs.Trace.{start};
ghost use Rattle.replay.specs.Shaped.{InLimits, shaped, shaped_in};

use model::answer::Answer;
use shape::Shape;
use std::marker::Model;

// There is room for every shape, and the bytes of this one are in front.
#[derive(Drop)]
pub struct Machine {
    shape: Shape,
    memory: [u8; Shape::MAX_MEMORY_BYTES],
    tags: [u8; Shape::MAX_TAGS_BYTES],
    states: [u8; Shape::MAX_STATES_BYTES],
    data: [u8; Shape::MAX_DATA_BYTES],
}

impl Model for Machine {
    ghost use Rattle.replay.specs.Shaped.{Shaped, InLimits, shaped_in};

    ghost Value = { Shaped };

    ghost view = { λ m. shaped_in m.shape m.memory m.tags m.states m.«data» };

    ghost invariant = { λ m. InLimits m.shape };
}

// One order on the bytes of the shape, which are in front in each array.
#[tactic(auto, using(crate::proofs::Playing::memory_few, crate::proofs::Playing::tags_few))]
fn step_in_front(
    shape: Shape,
    memory: &mut [u8; Shape::MAX_MEMORY_BYTES],
    tags: &mut [u8; Shape::MAX_TAGS_BYTES],
    states: &mut [u8; Shape::MAX_STATES_BYTES],
    data: &mut [u8; Shape::MAX_DATA_BYTES],
    word: u64,
    operand: u64,
) -> Answer
    requires { InLimits shape }
    ensures { step_result result (shaped_in shape memory.new tags.new states.new «data».new).model
        ≡ step shape (order word operand) (shaped_in shape memory.old tags.old states.old «data».old).model }
{
    let sizes = shape.sizes();
    step::step_order(
        shape,
        &mut memory[..sizes.memory],
        &mut tags[..sizes.tags],
        &mut states[..sizes.states],
        &mut data[..sizes.data],
        word,
        operand,
    )
}

impl Machine {
    // Memory of zeros and a fresh model.
    pub fn new(shape: Shape) -> Machine
        requires range { in_range shape ≡ true }
        requires ends { ranges_end shape ≡ true }
        ensures { result ≡ shaped shape (start shape) }
    {
        Machine {
            shape,
            memory: [0; Shape::MAX_MEMORY_BYTES],
            tags: [0; Shape::MAX_TAGS_BYTES],
            states: [0; Shape::MAX_STATES_BYTES],
            data: [0; Shape::MAX_DATA_BYTES],
        }
    }

    // One order.
    pub fn step(&mut self, word: u64, operand: u64) -> Answer
        ensures shape { self.new.shape ≡ self.old.shape }
        ensures stepped { step_result result self.new.model ≡ step self.old.shape (order word operand) self.old.model }
    {
        let Machine {
            shape,
            memory,
            tags,
            states,
            data,
        } = self;
        step_in_front(*shape, memory, tags, states, data, word, operand)
    }

    // The audit of memory and tables as they are.
    #[tactic(auto, using(crate::proofs::Playing::memory_few, crate::proofs::Playing::tags_few))]
    pub fn audit(&self) -> bool
        ensures { result ≡ audit self.now.shape self.now.model }
    {
        let sizes = self.shape.sizes();
        audit::audit_tables(
            self.shape,
            &self.memory[..sizes.memory],
            &self.tags[..sizes.tags],
            &self.states[..sizes.states],
            &self.data[..sizes.data],
        )
    }
}
