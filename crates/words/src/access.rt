// Accesses of a port to a line, and what each does at the word that it finds.
ghost use Rattle.std.specs.Prelude.{◌≡◌};
ghost use Rattle.words.specs.Access.{effect_at, is_write, is_swap, mask_of, operand_of, compare_of, outcome_of};

use crate::{choose, word};

// A write's mask and operand; a compare-and-swap's mask, operand and compare value.
#[derive(Clone, Copy, Debug, PartialEq, Eq)]
pub enum Access {
    Read,
    Write(u8, u64),
    Swap(u8, u64, u64),
}

// What an access comes to once the word is known: a read, or a swap that fails; a write, or a swap that succeeds, which changes the word; or
// one that leaves the word as it was (a silent store).
#[derive(Clone, Copy, Debug, PartialEq, Eq)]
pub enum Outcome {
    Reads,
    Writes,
    Rewrites,
}

// What an access does at a word: its outcome, the line's word afterwards, and the answer's value and swapped mark.
#[derive(Clone, Copy, Debug, PartialEq, Eq)]
pub struct Effect {
    pub outcome: Outcome,
    pub word: u64,
    pub value: u64,
    pub swapped: bool,
}

fn is_write(a: Access) -> bool
    ensures { result ≡ is_write a }
{
    matches!(a, Access::Write(_, _))
}

fn is_swap(a: Access) -> bool
    ensures { result ≡ is_swap a }
{
    matches!(a, Access::Swap(_, _, _))
}

// The mask and the operand to merge by. A read merges nothing: it has the full mask, at which a merge is short.
fn mask_of(a: Access) -> u8
    ensures { result ≡ mask_of a }
{
    match a {
        Access::Read => 0xFF,
        Access::Write(mask, _) | Access::Swap(mask, _, _) => mask,
    }
}

fn operand_of(a: Access) -> u64
    ensures { result ≡ operand_of a }
{
    match a {
        Access::Read => 0,
        Access::Write(_, x) | Access::Swap(_, x, _) => x,
    }
}

fn compare_of(a: Access) -> u64
    ensures { result ≡ compare_of a }
{
    match a {
        Access::Read | Access::Write(_, _) => 0,
        Access::Swap(_, _, compare) => compare,
    }
}

// The outcome of an access that writes or doesn't, and whose merge leaves the word as it was or doesn't.
fn outcome_of(writes: bool, same: bool) -> Outcome
    ensures { result ≡ outcome_of writes same }
{
    match (writes, same) {
        (false, _) => Outcome::Reads,
        (true, false) => Outcome::Writes,
        (true, true) => Outcome::Rewrites,
    }
}

// What an access does at the word w. It takes no jump on the access's kind: the kinds of successive orders follow no pattern.
pub fn effect_at(a: Access, w: u64) -> Effect
    ensures { result ≡ effect_at a w }
{
    let mask = mask_of(a);
    let write = is_write(a);
    let swap = is_swap(a);
    let swapped = swap & (word::half_of(mask, w) == compare_of(a));
    let writes = write | swapped;
    let merge = word::merged(mask, w, operand_of(a));
    Effect {
        outcome: outcome_of(writes, !merge.changed),
        word: choose::choose(writes, merge.word, w),
        value: choose::choose(write, 0, w),
        swapped,
    }
}
