// Tables of the old edition, which has five states and no mode: three lent tables converted into three others, to the new edition and back.
#![tactic(auto)]

ghost use Rattle.std.specs.Prelude.{◌≡◌, map, length};
ghost use Rattle.refusals.specs.Numbers.{refusal_in};
ghost use Rattle.letters.specs.Letters.{converted, byte_from};
ghost use Rattle.edition.specs.Convert.{tables, states_refusal, conversion, convert};

use letters::Way;
use refusals::Refusal;
use shape::Shape;

// The refusal of a state table. A byte that is no state is told before one in write through, wherever the two stand.
fn states_refusal(way: Way, states: &[u8]) -> Result<(), Refusal>
    ensures { refusal_in result ≡ states_refusal way states.now }
{
    let mut found = Ok(());
    for b in states {
        if let Err(r) = letters::convert_byte(way, *b) {
            if r == Refusal::State {
                return Err(r);
            }
            found = Err(r);
        }
    }
    found
}

// Each byte as it is. (The library's `copy_from_slice` calls `memmove`, and the archive for C would then need it from outside.)
fn copy_bytes(table: &[u8], out: &mut [u8])
    requires { length out.old ≡ length table.now }
    ensures { out.new ≡ table.now }
{
    for (k, b) in out.iter_mut().enumerate() {
        *b = table[k];
    }
}

// Each state byte converted. No byte of the table is refused: `states_refusal` comes first. (Of `iter_mut().zip(table)` no contract says what
// is written.)
fn convert_bytes(way: Way, table: &[u8], out: &mut [u8])
    requires { length out.old ≡ length table.now }
    ensures { out.new ≡ map (λ b. byte_from (converted way b)) table.now }
{
    for (k, b) in out.iter_mut().enumerate() {
        *b = letters::convert_byte(way, table[k]).unwrap_or(0);
    }
}

// Three tables converted into three others. Every byte is checked before the first is written: a refusal leaves the output tables alone.
// It goes into each caller, which knows the way: as a call of its own it takes up to 1.4 times as long.
#[tactic(auto, using(crate::proofs::Conversions::same_lengths, crate::proofs::Conversions::call_returns))]
#[inline(always)]
pub fn convert(
    way: Way,
    shape: Shape,
    tags: &[u8],
    states: &[u8],
    data: &[u8],
    tags_out: &mut [u8],
    states_out: &mut [u8],
    data_out: &mut [u8],
) -> Result<(), Refusal>
    ensures { conversion (refusal_in result) (tables tags_out.new states_out.new data_out.new)
        ≡ convert way shape (tables tags.now states.now «data».now)
        (tables tags_out.old states_out.old data_out.old) }
{
    if !shape.is_in_range() {
        return Err(Refusal::Shape);
    }
    let given = lengths::tables_fit(shape, tags.len(), states.len(), data.len());
    let lent = lengths::tables_fit(shape, tags_out.len(), states_out.len(), data_out.len());
    if !(given & lent) {
        return Err(Refusal::Lengths);
    }
    states_refusal(way, states)?;
    copy_bytes(tags, tags_out);
    convert_bytes(way, states, states_out);
    copy_bytes(data, data_out);
    Ok(())
}
