// The totals of a trace: its orders run from fresh on memory of zeros, and each is counted in a record; and rows of totals, added.
#![tactic(auto)]

ghost use Rattle.std.specs.Prelude.{◌≡◌, true, ℕ, ◌+◌, ◌*◌, ◌≤◌, get_or, length};
ghost use Rattle.shape.specs.Shape.{in_range, ranges_end};
ghost use Rattle.decode.specs.Order.{order};
ghost use Rattle.refusals.specs.Numbers.{refusal_in};
ghost use Rattle.replay.specs.Trace.{trace_refusal, orders_of, trace_orders, start};
ghost use Rattle.counters.specs.Totals.{places, total_at, record_length, totals_in, step_totals};
ghost use Rattle.counters.specs.Run.{totals_with};
ghost use Rattle.tally.specs.Tally.{tallied, rest_of, added, Summable, row_of};

use counters::lent;
use refusals::Refusal;
use replay::machine::Machine;
use shape::Shape;

// One order, counted in a record: what is left of the step with totals but for its answer.
fn count_order(machine: &mut Machine, word: u64, operand: u64, row: &mut [u8])
    requires { length row.old ≡ record_length }
    ensures shape { machine.new.shape ≡ machine.old.shape }
    ensures model_after { machine.new.model
        ≡ (step_totals machine.old.shape (order word operand) machine.old.model (totals_in row.old)).after }
    ensures row_after { totals_in row.new
        ≡ (step_totals machine.old.shape (order word operand) machine.old.model (totals_in row.old)).totals }
{
    if lent::is_full(row) {
        return;
    }
    let a = machine.step(word, operand);
    lent::count(row, decode::kind_of(word), a);
}

// The first n orders of two parallel arrays, the words and the operands. The loop is not that of `replay`, which fills the places of the answers:
// one function for both would take a closure that changes the row, of which its contract would say less than this one.
fn count_orders(machine: &mut Machine, words: &[u8], operands: &[u8], n: usize, row: &mut [u8])
    requires in_words { 8 * n ≤ length words.now }
    requires in_operands { 8 * n ≤ length operands.now }
    requires sized { length row.old ≡ record_length }
    ensures { totals_in row.new
        ≡ totals_with machine.old.shape (orders_of words.now operands.now 0 n) machine.old.model (totals_in row.old) }
{
    for k in 0..n {
        let (word, operand) = replay::order_at(words, operands, k);
        count_order(machine, word, operand, row);
    }
}

// The orders of a trace that is not refused, on memory and tables of zeros.
fn tally_orders(shape: Shape, orders: usize, trace: &[u8], row: &mut [u8])
    requires range { in_range shape ≡ true }
    requires ends { ranges_end shape ≡ true }
    requires whole { (orders ≤ 2048) × (length trace.now ≡ 16 + 16 * orders) }
    requires sized { length row.old ≡ record_length }
    ensures { totals_in row.new ≡ totals_with shape (trace_orders orders trace.now) (start shape)
        (totals_in row.old) }
{
    let middle = 16 + 8 * orders;
    count_orders(
        &mut Machine::new(shape),
        &trace[16..],
        &trace[middle..],
        orders,
        row,
    );
}

// The totals of a trace go to row, zeros if it is refused. No total is above 4,096: two for each of 2,048 orders.
#[tactic(auto, using(crate::proofs::Counting::refused_totals, crate::proofs::Counting::refused_bounded, refusals::proofs::Numbers::some_number, std::proofs::lemmas::Result::err_from_is_err_and))]
pub fn tally_trace(trace: &[u8], row: &mut [u8]) -> Result<(), Refusal>
    requires { length row.old ≡ record_length }
    ensures refusal { refusal_in result ≡ trace_refusal trace.now }
    ensures totals { totals_in row.new ≡ tallied trace.now }
    ensures bounded { (k : ℕ) → total_at (totals_in row.new) k ≤ 4096 }
{
    fresh::clear_bytes(row);
    replay::trace_refusal(trace)?;
    let shape = replay::shape_in(trace);
    let orders = replay::orders_in(trace);
    tally_orders(shape, orders, trace, row);
    Ok(())
}

// The bytes that a trace has behind its sizes: none where it says too many orders.
pub fn rest_of(sizes: &[u8]) -> usize
    requires { 16 ≤ length sizes.now }
    ensures { (result ≡ rest_of sizes.now) × (result ≤ 32768) }
{
    let n = replay::orders_in(sizes);
    if replay::MAX_ORDERS < n {
        return 0;
    }
    16 * n
}

// A row of totals is added to the sum, where there is room for it.
pub fn add_row(sum: &mut [u8], row: &[u8])
    requires sized { (length sum.old ≡ record_length) × (length row.now ≡ record_length) }
    requires summable { Summable (totals_in sum.old) (totals_in row.now) }
    ensures { totals_in sum.new ≡ added (totals_in sum.old) (totals_in row.now) }
{
    for k in 0..lent::PLACES {
        let total = lent::total_at(sum, k) + lent::total_at(row, k);
        endian::write::<8>(sum, 8 * k, total);
    }
}

// Number k of a row, from 0.
pub fn row_number(number: u64, row: &[u8], k: usize) -> u64
    requires { (length row.now ≡ record_length) × (k ≤ places) }
    ensures { result ≡ get_or (row_of number (totals_in row.now)) k 0 }
{
    if k == 0 {
        return number;
    }
    lent::total_at(row, k - 1)
}
