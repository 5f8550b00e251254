// The record of totals in the bytes that a host lends: 64-bit little-endian numbers, and how an order is counted in it.
ghost use Rattle.std.specs.Prelude.{◌≡◌, false, ◌<◌, ◌≤◌, length};
ghost use Rattle.model.specs.Order.{kinds};
ghost use Rattle.counters.specs.Totals.{places, total_at, high, full, order_place, totals_after, Few, record_length, totals_in};
ghost use Rattle.counters.specs.Counters.{counters_at, counters_put};

use crate::Counters;
use model::answer::Answer;
use model::order::KINDS;

// The places of the totals behind those of the kinds, and how many there are.
const REFUSED: usize = KINDS;

const READS: usize = KINDS + 1;

const WRITES: usize = KINDS + 2;

const SWAPS: usize = KINDS + 3;

pub const PLACES: usize = KINDS + 4;

// The bytes of a record.
pub const RECORD_BYTES: usize = 8 * PLACES;

// The highest total to which an order may still be added: 2 to the 64, less 3.
const MOST: u64 = u64::MAX - 2;

// The total at a place.
pub fn total_at(lent: &[u8], k: usize) -> u64
    requires { (length lent.now ≡ record_length) × (k < places) }
    ensures { result ≡ total_at (totals_in lent.now) k }
{
    endian::read::<8>(lent, 8 * k)
}

// A total that has no room.
#[tactic(auto, unfolding(crate::specs::Totals::high))]
fn is_high(n: u64) -> bool
    ensures { result ≡ high n }
{
    MOST < n
}

// Some total has no room.
pub fn is_full(lent: &[u8]) -> bool
    requires { length lent.now ≡ record_length }
    ensures { result ≡ full (totals_in lent.now) }
{
    (0..PLACES).any(|k| is_high(total_at(lent, k)))
}

// The place under which an order is counted. Kinds and refusals are numbers here: the record that a C host lends has its places by them.
fn order_place(kind: usize, refusal: u64) -> usize
    ensures { result ≡ order_place kind refusal }
{
    if refusal == 0 { kind } else { REFUSED }
}

// The counters of an order that is counted at place k.
#[tactic(auto, unfolding(crate::specs::Counters::counters_at))]
fn counters_at(lent: &[u8], k: usize) -> Counters
    requires { (length lent.now ≡ record_length) × (k ≤ kinds) }
    ensures { result ≡ counters_at (totals_in lent.now) k }
{
    Counters {
        orders: total_at(lent, k),
        reads: total_at(lent, READS),
        writes: total_at(lent, WRITES),
        swaps: total_at(lent, SWAPS),
    }
}

// Puts them back.
fn put_counters(lent: &mut [u8], k: usize, c: Counters)
    requires { (length lent.old ≡ record_length) × (k ≤ kinds) }
    ensures { totals_in lent.new ≡ counters_put (totals_in lent.old) k c }
{
    endian::write::<8>(lent, 8 * k, c.orders);
    endian::write::<8>(lent, 8 * READS, c.reads);
    endian::write::<8>(lent, 8 * WRITES, c.writes);
    endian::write::<8>(lent, 8 * SWAPS, c.swaps);
}

// Counts an answer to an order of this kind.
pub fn count(lent: &mut [u8], kind: usize, a: Answer)
    requires fitting { length lent.old ≡ record_length }
    requires room { full (totals_in lent.old) ≡ false }
    requires few { Few kind a }
    ensures { totals_in lent.new ≡ totals_after (totals_in lent.old) kind a }
{
    let k = order_place(kind, a.refusal);
    let c = counters_at(lent, k).updated(a);
    put_counters(lent, k, c);
}
