// The C interface as a static library: each export is the call of its name in the crate moesi, with the same contract. include/moesi.h declares
// them. A C host is given the number of a refusal, so each returns one. They stand apart from those calls because a static library is no crate
// that another crate can call.
#![tactic(auto)]

ghost use Rattle.std.specs.Prelude.{◌≡◌, []};
ghost use Rattle.shape.specs.Shape.{shape_of, unranged};
ghost use Rattle.decode.specs.Order.{order};
ghost use Rattle.ports.specs.Bytes.{bytes};
ghost use Rattle.host.specs.Host.{hosted, host_step, host_fresh, host_audit};
ghost use Rattle.host.specs.ReadBack.{OfBytes};
ghost use Rattle.host.specs.Totals.{with_record, host_step_totals};
ghost use Rattle.letters.specs.declared.Way.TheVariants.{ToNew, ToOld};
ghost use Rattle.edition.specs.Convert.{tables, conversion, convert};

// One order: its five numbers go to answer, those of a refused order too. An answer of another length than 40 bytes is left alone.
#[unsafe(no_mangle)]
pub extern "C" fn moesi_step(
    ports: usize,
    sets: usize,
    lines: usize,
    scratch_first: usize,
    scratch_count: usize,
    device_first: usize,
    device_count: usize,
    word: u64,
    operand: u64,
    memory: &mut [u8],
    tags: &mut [u8],
    states: &mut [u8],
    data: &mut [u8],
    answer: &mut [u8],
) -> u64
    ensures { OfBytes (bytes memory.old tags.old states.old «data».old)
        × (hosted result (bytes memory.new tags.new states.new «data».new) answer.new
        ≡ host_step (shape_of ports sets lines scratch_first scratch_count device_first device_count) (order word operand)
        (bytes memory.old tags.old states.old «data».old) answer.old) }
{
    moesi::moesi_step(
        ports,
        sets,
        lines,
        scratch_first,
        scratch_count,
        device_first,
        device_count,
        word,
        operand,
        memory,
        tags,
        states,
        data,
        answer,
    )
}

// One order with a record of totals, which is brought up to date. Refusal 9 comes first of all, where the record has its length and a total
// has no room; a record of another length is refused and left alone.
#[unsafe(no_mangle)]
pub extern "C" fn moesi_step_totals(
    ports: usize,
    sets: usize,
    lines: usize,
    scratch_first: usize,
    scratch_count: usize,
    device_first: usize,
    device_count: usize,
    word: u64,
    operand: u64,
    memory: &mut [u8],
    tags: &mut [u8],
    states: &mut [u8],
    data: &mut [u8],
    answer: &mut [u8],
    totals: &mut [u8],
) -> u64
    ensures { OfBytes (bytes memory.old tags.old states.old «data».old)
        × (with_record (hosted result (bytes memory.new tags.new states.new «data».new)
        answer.new) totals.new
        ≡ host_step_totals (shape_of ports sets lines scratch_first scratch_count device_first device_count) (order word operand)
        (bytes memory.old tags.old states.old «data».old) answer.old
        totals.old) }
{
    moesi::moesi_step_totals(
        ports,
        sets,
        lines,
        scratch_first,
        scratch_count,
        device_first,
        device_count,
        word,
        operand,
        memory,
        tags,
        states,
        data,
        answer,
        totals,
    )
}

// A fresh model: zeros in the three tables.
#[unsafe(no_mangle)]
pub extern "C" fn moesi_fresh(
    ports: usize,
    sets: usize,
    lines: usize,
    scratch_first: usize,
    scratch_count: usize,
    device_first: usize,
    device_count: usize,
    memory: &[u8],
    tags: &mut [u8],
    states: &mut [u8],
    data: &mut [u8],
) -> u64
    ensures { OfBytes (bytes memory.now tags.old states.old «data».old)
        × (hosted result (bytes memory.now tags.new states.new «data».new) []
        ≡ host_fresh (shape_of ports sets lines scratch_first scratch_count device_first device_count)
        (bytes memory.now tags.old states.old «data».old)) }
{
    moesi::moesi_fresh(
        ports,
        sets,
        lines,
        scratch_first,
        scratch_count,
        device_first,
        device_count,
        memory,
        tags,
        states,
        data,
    )
}

// The audit: 1 for yes goes to verdict, else 0; a refused audit says no.
#[unsafe(no_mangle)]
pub extern "C" fn moesi_audit(
    ports: usize,
    sets: usize,
    lines: usize,
    scratch_first: usize,
    scratch_count: usize,
    device_first: usize,
    device_count: usize,
    memory: &[u8],
    tags: &[u8],
    states: &[u8],
    data: &[u8],
    verdict: &mut [u8],
) -> u64
    ensures { OfBytes (bytes memory.now tags.now states.now «data».now)
        × (hosted result (bytes memory.now tags.now states.now «data».now)
        verdict.new
        ≡ host_audit (shape_of ports sets lines scratch_first scratch_count device_first device_count)
        (bytes memory.now tags.now states.now «data».now) verdict.old) }
{
    moesi::moesi_audit(
        ports,
        sets,
        lines,
        scratch_first,
        scratch_count,
        device_first,
        device_count,
        memory,
        tags,
        states,
        data,
        verdict,
    )
}

// Tables of this edition, out of tables of the old one.
#[unsafe(no_mangle)]
pub extern "C" fn moesi_from_old(
    ports: usize,
    sets: usize,
    lines: usize,
    tags: &[u8],
    states: &[u8],
    data: &[u8],
    tags_out: &mut [u8],
    states_out: &mut [u8],
    data_out: &mut [u8],
) -> u64
    ensures { conversion result (tables tags_out.new states_out.new data_out.new)
        ≡ convert ToNew (unranged ports sets lines)
        (tables tags.now states.now «data».now)
        (tables tags_out.old states_out.old data_out.old) }
{
    moesi::moesi_from_old(
        ports, sets, lines, tags, states, data, tags_out, states_out, data_out,
    )
}

// Tables of the old edition, out of tables of this one.
#[unsafe(no_mangle)]
pub extern "C" fn moesi_to_old(
    ports: usize,
    sets: usize,
    lines: usize,
    tags: &[u8],
    states: &[u8],
    data: &[u8],
    tags_out: &mut [u8],
    states_out: &mut [u8],
    data_out: &mut [u8],
) -> u64
    ensures { conversion result (tables tags_out.new states_out.new data_out.new)
        ≡ convert ToOld (unranged ports sets lines)
        (tables tags.now states.now «data».now)
        (tables tags_out.old states_out.old data_out.old) }
{
    moesi::moesi_to_old(
        ports, sets, lines, tags, states, data, tags_out, states_out, data_out,
    )
}
