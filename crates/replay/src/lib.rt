// A trace: four sizes, then all order words, then all operands, in one buffer of bytes. Its orders run on memory of zeros.
#![tactic(auto)]

pub mod machine;

ghost use Rattle.std.specs.Prelude.{◌≡◌, true, ◌+◌, ◌*◌, ◌<◌, ◌≤◌, ◌^◌, length, IfOk};
ghost use Rattle.shape.specs.Shape.{in_range, ranges_end};
ghost use Rattle.model.specs.Audit.{audit};
ghost use Rattle.model.specs.Marks.{model_run};
ghost use Rattle.decode.specs.Order.{order};
ghost use Rattle.refusals.specs.Numbers.{refusal_in};
ghost use Rattle.replay.specs.Trace.{shape_in, orders_in, trace_refusal, order_at, orders_of, trace_orders, fives, answers_to, placed, start, outcome_of, played, answers_of};

use machine::Machine;
use model::answer::Answer;
use refusals::Refusal;
use shape::Shape;

// The most orders that a trace may say.
pub const MAX_ORDERS: usize = 2048;

// What a trace that is not refused yields besides its answers: the shape and the number of orders that it says; the audit of the end.
#[derive(Clone, Copy, Debug, PartialEq, Eq)]
pub struct Played {
    pub shape: Shape,
    pub orders: usize,
    pub passes: bool,
}

// The first three sizes; a trace carries no ranges.
pub fn shape_in(trace: &[u8]) -> Shape
    requires { 16 ≤ length trace.now }
    ensures { result ≡ shape_in trace.now }
{
    Shape::unranged(
        endian::read::<4>(trace, 0) as usize,
        endian::read::<4>(trace, 4) as usize,
        endian::read::<4>(trace, 8) as usize,
    )
}

// The fourth size.
pub fn orders_in(trace: &[u8]) -> usize
    requires { 16 ≤ length trace.now }
    ensures { (result ≡ orders_in trace.now) × (result < 2 ^ 32) }
{
    endian::read::<4>(trace, 12) as usize
}

// Whether a trace may run: its length and the number of its orders are checked first, then its shape.
#[tactic(auto, using(crate::proofs::Refusing::refused_many))]
pub fn trace_refusal(trace: &[u8]) -> Result<(), Refusal>
    ensures { refusal_in result ≡ trace_refusal trace.now }
{
    if trace.len() < 16 {
        return Err(Refusal::Trace);
    }
    let n = orders_in(trace);
    if MAX_ORDERS < n {
        return Err(Refusal::Trace);
    }
    if trace.len() != 16 + 16 * n {
        return Err(Refusal::Trace);
    }
    if !shape_in(trace).is_in_range() {
        return Err(Refusal::Shape);
    }
    Ok(())
}

// The order at place k of two parallel arrays, the words and the operands: its word and its operand.
#[tactic(auto, unfolding(crate::specs::Trace::order_at))]
pub fn order_at(words: &[u8], operands: &[u8], k: usize) -> (u64, u64)
    requires in_words { 8 * k + 8 ≤ length words.now }
    requires in_operands { 8 * k + 8 ≤ length operands.now }
    ensures { order result.0 result.1 ≡ order_at words.now operands.now k }
{
    let word = endian::read::<8>(words, 8 * k);
    let operand = endian::read::<8>(operands, 8 * k);
    (word, operand)
}

// The orders of two parallel arrays, the words and the operands: each answer goes to its place.
fn run_orders(machine: &mut Machine, words: &[u8], operands: &[u8], answers: &mut [Answer])
    requires in_words { 8 * length answers.old ≤ length words.now }
    requires in_operands { 8 * length answers.old ≤ length operands.now }
    ensures shape { machine.new.shape ≡ machine.old.shape }
    ensures model_after { machine.new.model
        ≡ model_run machine.old.shape (orders_of words.now operands.now 0 (length answers.old)) machine.old.model }
    ensures answers { fives answers.new
        ≡ answers_to machine.old.shape (orders_of words.now operands.now 0 (length answers.old)) machine.old.model }
{
    for (k, place) in answers.iter_mut().enumerate() {
        let (word, operand) = order_at(words, operands, k);
        let a = machine.step(word, operand);
        *place = a;
    }
}

// The orders of a trace that is not refused, on memory and tables of zeros, and then the audit of what they leave. The operands are the
// part of the trace that starts in its middle, after the words.
fn play_orders(
    shape: Shape,
    orders: usize,
    trace: &[u8],
    answers: &mut [Answer; MAX_ORDERS],
) -> bool
    requires range { in_range shape ≡ true }
    requires ends { ranges_end shape ≡ true }
    requires whole { (orders ≤ 2048) × (length trace.now ≡ 16 + 16 * orders) }
    ensures passes { result ≡ audit shape (model_run shape (trace_orders orders trace.now) (start shape)) }
    ensures answers { fives answers.new
        ≡ placed (answers_to shape (trace_orders orders trace.now) (start shape)) (fives answers.old) }
{
    let mut machine = Machine::new(shape);
    let middle = 16 + 8 * orders;
    run_orders(
        &mut machine,
        &trace[16..],
        &trace[middle..],
        &mut answers[..orders],
    );
    machine.audit()
}

// Runs a trace. The answers come first in `answers`, and what stands behind them stays.
pub fn play_trace(trace: &[u8], answers: &mut [Answer; MAX_ORDERS]) -> Result<Played, Refusal>
    ensures played { outcome_of result ≡ played trace.now }
    ensures few { IfOk result (λ p. p.orders ≤ 2048) }
    ensures answers { fives answers.new ≡ placed (answers_of trace.now) (fives answers.old) }
{
    trace_refusal(trace)?;
    let shape = shape_in(trace);
    let orders = orders_in(trace);
    let passes = play_orders(shape, orders, trace, answers);
    Ok(Played {
        shape,
        orders,
        passes,
    })
}
