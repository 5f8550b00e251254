// One order on main memory and tables in bytes of the right lengths.
#![tactic(auto)]

ghost use Rattle.std.specs.Prelude.{◌≡◌};
ghost use Rattle.model.specs.Order.{Asked, There};
ghost use Rattle.model.specs.Step.{result as step_result, answer_of, perform, step};
ghost use Rattle.decode.specs.Order.{order};
ghost use Rattle.ports.specs.Bytes.{bytes, model_in, Fitting};

use caches::{access, device, flush};
use model::answer::Answer;
use model::order::Call;
use ports::survey;
use refusals::Refusal;
use shape::Shape;

// A call on line a. All but a device read look at the ports' entries, and may be refused for one. The look stands in each arm: in front of
// them the fields of every kind of call would be carried past it, which costs an access 5 to 8 % more instructions. Each arm is another function
// with other arguments, so no closure is chosen here.
fn perform_call(
    shape: Shape,
    memory: &mut [u8],
    tags: &mut [u8],
    states: &mut [u8],
    words: &mut [u8],
    call: Call,
    a: usize,
) -> Result<Answer, Refusal>
    requires fitting { Fitting shape (bytes memory.old tags.old states.old words.old) }
    requires there { There shape call a }
    ensures { step_result (answer_of result) (model_in shape (bytes memory.new tags.new states.new words.new))
        ≡ perform shape (model_in shape (bytes memory.old tags.old states.old words.old))
        (Asked call a) }
{
    match call {
        Call::ByPort(acc, m, i) => {
            let look = survey::look_at(shape, tags, states, words, a)?;
            Ok(access::access_line(memory, tags, states, words, look.line, i, look.said, acc, m))
        }
        Call::Flush(i) => {
            let look = survey::look_at(shape, tags, states, words, a)?;
            Ok(flush::flush_line(memory, tags, states, words, look.line, i, look.said))
        }
        Call::DeviceRead => Ok(device::device_read(memory, a)),
        Call::DeviceWrite(mask, x) => {
            let look = survey::look_at(shape, tags, states, words, a)?;
            Ok(device::device_write(memory, tags, states, words, look.line, look.said, mask, x))
        }
    }
}

// One order: its five numbers, with main memory and the tables brought up to date.
pub fn step_order(
    shape: Shape,
    memory: &mut [u8],
    tags: &mut [u8],
    states: &mut [u8],
    words: &mut [u8],
    w: u64,
    x: u64,
) -> Answer
    requires { Fitting shape (bytes memory.old tags.old states.old words.old) }
    ensures { step_result result (model_in shape (bytes memory.new tags.new states.new words.new))
        ≡ step shape (order w x)
        (model_in shape (bytes memory.old tags.old states.old words.old)) }
{
    let decoded = decode::decode_order(shape, w, x);
    let Ok((call, a)) = decoded else {
        return answers::refuse(refusals::number_of(decoded));
    };
    match perform_call(shape, memory, tags, states, words, call, a) {
        Ok(answer) => answer,
        Err(refusal) => answers::refuse(u64::from(refusal)),
    }
}
