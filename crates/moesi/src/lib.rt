// The calls of the C interface: step, step with totals, fresh, audit and the conversion of old tables on numbers and byte slices, as
// include/moesi.h declares them; the crate moesi_c exports them. Each returns the number of its refusal, 0 if none, as a C host is
// given it; `moesi_from_old` and `moesi_to_old` are two calls of that interface.
// All that is asked of the caller is that the slices have the lengths that it says and share no byte with one another.
// Each contract equates what a call returns and leaves with a definition. Those of step, fresh and audit say besides that what is lent is
// bytes (`OfBytes`): the theorems over calls, in crates/host/specs, start from that.
#![tactic(auto)]

ghost use Rattle.std.specs.Prelude.{◌≡◌, []};
ghost use Rattle.refusals.specs.Numbers.{refusal_in};
ghost use Rattle.shape.specs.Shape.{shape_of, unranged};
ghost use Rattle.decode.specs.Order.{order};
ghost use Rattle.ports.specs.Bytes.{bytes};
ghost use Rattle.host.specs.Host.{hosted, host_refusal, host_step, host_fresh, host_audit};
ghost use Rattle.host.specs.ReadBack.{OfBytes};
ghost use Rattle.host.specs.Totals.{with_record, host_step_totals};
ghost use Rattle.letters.specs.declared.Way.TheVariants.{ToNew, ToOld};
ghost use Rattle.edition.specs.Convert.{tables, conversion, convert};

use counters::lent;
use letters::Way;
use refusals::Refusal;
use shape::{Shape, Sizes};

// What is lent has the lengths of the shape; out says that the slice written to has its own.
fn check_lent(
    shape: Shape,
    memory: &[u8],
    tags: &[u8],
    states: &[u8],
    data: &[u8],
    out: bool,
) -> Result<(), Refusal>
    ensures { refusal_in result ≡ host_refusal shape (bytes memory.now tags.now states.now «data».now) out }
{
    let lent = Sizes {
        memory: memory.len(),
        tags: tags.len(),
        states: states.len(),
        data: data.len(),
    };
    lengths::check(shape, lent, out)
}

// One order: its five numbers go to answer, those of a refused order too. An answer of another length than 40 bytes is left alone.
pub fn moesi_step(
    ports: usize,
    sets: usize,
    lines: usize,
    scratch_first: usize,
    scratch_count: usize,
    device_first: usize,
    device_count: usize,
    word: u64,
    operand: u64,
    memory: &mut [u8],
    tags: &mut [u8],
    states: &mut [u8],
    data: &mut [u8],
    answer: &mut [u8],
) -> u64
    ensures { OfBytes (bytes memory.old tags.old states.old «data».old)
        × (hosted result (bytes memory.new tags.new states.new «data».new) answer.new
        ≡ host_step (shape_of ports sets lines scratch_first scratch_count device_first device_count) (order word operand)
        (bytes memory.old tags.old states.old «data».old) answer.old) }
{
    let shape = Shape::new(
        ports,
        sets,
        lines,
        scratch_first,
        scratch_count,
        device_first,
        device_count,
    );
    if let Err(r) = check_lent(shape, memory, tags, states, data, answer.len() == 40) {
        let n = u64::from(r);
        host::put_refusal(answer, n);
        return n;
    }
    let a = step::step_order(shape, memory, tags, states, data, word, operand);
    answers::put_answer(answer, a.refusal, a.value, a.swapped, a.reads, a.writes);
    a.refusal
}

// One order with a record of totals, which is brought up to date. Refusal 9 comes first of all, where the record has its length and a total
// has no room; a record of another length is refused and left alone.
#[tactic(auto, using(host::proofs::Host::of_bytes, host::proofs::Totals::record_misfit))]
pub fn moesi_step_totals(
    ports: usize,
    sets: usize,
    lines: usize,
    scratch_first: usize,
    scratch_count: usize,
    device_first: usize,
    device_count: usize,
    word: u64,
    operand: u64,
    memory: &mut [u8],
    tags: &mut [u8],
    states: &mut [u8],
    data: &mut [u8],
    answer: &mut [u8],
    totals: &mut [u8],
) -> u64
    ensures { OfBytes (bytes memory.old tags.old states.old «data».old)
        × (with_record (hosted result (bytes memory.new tags.new states.new «data».new)
        answer.new) totals.new
        ≡ host_step_totals (shape_of ports sets lines scratch_first scratch_count device_first device_count) (order word operand)
        (bytes memory.old tags.old states.old «data».old) answer.old
        totals.old) }
{
    if totals.len() != lent::RECORD_BYTES {
        let shape = Shape::new(
            ports,
            sets,
            lines,
            scratch_first,
            scratch_count,
            device_first,
            device_count,
        );
        let n = refusals::number_of(check_lent(shape, memory, tags, states, data, false));
        host::put_refusal(answer, n);
        return n;
    }
    if lent::is_full(totals) {
        let full = u64::from(Refusal::Totals);
        host::put_refusal(answer, full);
        return full;
    }
    let n = moesi_step(
        ports,
        sets,
        lines,
        scratch_first,
        scratch_count,
        device_first,
        device_count,
        word,
        operand,
        memory,
        tags,
        states,
        data,
        answer,
    );
    let a = host::counts_in(n, answer);
    lent::count(totals, decode::kind_of(word), a);
    n
}

// A fresh model: zeros in the three tables.
pub fn moesi_fresh(
    ports: usize,
    sets: usize,
    lines: usize,
    scratch_first: usize,
    scratch_count: usize,
    device_first: usize,
    device_count: usize,
    memory: &[u8],
    tags: &mut [u8],
    states: &mut [u8],
    data: &mut [u8],
) -> u64
    ensures { OfBytes (bytes memory.now tags.old states.old «data».old)
        × (hosted result (bytes memory.now tags.new states.new «data».new) []
        ≡ host_fresh (shape_of ports sets lines scratch_first scratch_count device_first device_count)
        (bytes memory.now tags.old states.old «data».old)) }
{
    let shape = Shape::new(
        ports,
        sets,
        lines,
        scratch_first,
        scratch_count,
        device_first,
        device_count,
    );
    if let Err(r) = check_lent(shape, memory, tags, states, data, true) {
        return u64::from(r);
    }
    fresh::clear_bytes(tags);
    fresh::clear_bytes(states);
    fresh::clear_bytes(data);
    0
}

// The audit: 1 for yes goes to verdict, else 0; a refused audit says no.
pub fn moesi_audit(
    ports: usize,
    sets: usize,
    lines: usize,
    scratch_first: usize,
    scratch_count: usize,
    device_first: usize,
    device_count: usize,
    memory: &[u8],
    tags: &[u8],
    states: &[u8],
    data: &[u8],
    verdict: &mut [u8],
) -> u64
    ensures { OfBytes (bytes memory.now tags.now states.now «data».now)
        × (hosted result (bytes memory.now tags.now states.now «data».now)
        verdict.new
        ≡ host_audit (shape_of ports sets lines scratch_first scratch_count device_first device_count)
        (bytes memory.now tags.now states.now «data».now) verdict.old) }
{
    let shape = Shape::new(
        ports,
        sets,
        lines,
        scratch_first,
        scratch_count,
        device_first,
        device_count,
    );
    let out = verdict.len() == 1;
    if let Err(r) = check_lent(shape, memory, tags, states, data, out) {
        if out {
            verdict[0] = 0;
        }
        return u64::from(r);
    }
    verdict[0] = u8::from(audit::audit_tables(shape, memory, tags, states, data));
    0
}

// Tables of this edition, out of tables of the old one.
pub fn moesi_from_old(
    ports: usize,
    sets: usize,
    lines: usize,
    tags: &[u8],
    states: &[u8],
    data: &[u8],
    tags_out: &mut [u8],
    states_out: &mut [u8],
    data_out: &mut [u8],
) -> u64
    ensures { conversion result (tables tags_out.new states_out.new data_out.new)
        ≡ convert ToNew (unranged ports sets lines)
        (tables tags.now states.now «data».now)
        (tables tags_out.old states_out.old data_out.old) }
{
    let converted = edition::convert(
        Way::ToNew,
        Shape::unranged(ports, sets, lines),
        tags,
        states,
        data,
        tags_out,
        states_out,
        data_out,
    );
    refusals::number_of(converted)
}

// Tables of the old edition, out of tables of this one.
pub fn moesi_to_old(
    ports: usize,
    sets: usize,
    lines: usize,
    tags: &[u8],
    states: &[u8],
    data: &[u8],
    tags_out: &mut [u8],
    states_out: &mut [u8],
    data_out: &mut [u8],
) -> u64
    ensures { conversion result (tables tags_out.new states_out.new data_out.new)
        ≡ convert ToOld (unranged ports sets lines)
        (tables tags.now states.now «data».now)
        (tables tags_out.old states_out.old data_out.old) }
{
    let converted = edition::convert(
        Way::ToOld,
        Shape::unranged(ports, sets, lines),
        tags,
        states,
        data,
        tags_out,
        states_out,
        data_out,
    );
    refusals::number_of(converted)
}
