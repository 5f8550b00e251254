// The five numbers of an answer, and their 40 bytes.
#![tactic(auto)]

ghost use Rattle.std.specs.Prelude.{◌≡◌, ◌+◌, ◌≤◌, length};
ghost use Rattle.words.specs.Bools.{bit};
ghost use Rattle.model.specs.Step.{refused, accepted};
ghost use Rattle.answers.specs.Answers.{answer_bytes};

use model::answer::Answer;

// The answer of a refused order. The refusal is a number, as the C interface has it.
pub fn refuse(n: u64) -> Answer
    ensures { result ≡ refused n }
{
    Answer {
        refusal: n,
        value: 0,
        swapped: 0,
        reads: 0,
        writes: 0,
    }
}

// The numbers of an accepted order: its value, whether it swapped, whether it fetched memory's word, and its two stores.
pub fn accept(value: u64, swapped: bool, fetches: bool, evicts: bool, stores: bool) -> Answer
    ensures { result ≡ accepted value (bit swapped) (bit fetches) (bit evicts + bit stores) }
{
    Answer {
        refusal: 0,
        value,
        swapped: u64::from(swapped),
        reads: u64::from(fetches),
        writes: u64::from(evicts) + u64::from(stores),
    }
}

// The five numbers, 64 bits each, as the C interface writes them: the refusal is one of them.
pub fn put_answer(out: &mut [u8], refusal: u64, value: u64, swapped: u64, reads: u64, writes: u64)
    requires { length out.old ≡ 40 }
    ensures { out.new ≡ answer_bytes
        (record { refusal = refusal; value = value; swapped = swapped; reads = reads; writes = writes }) }
{
    endian::write::<8>(out, 0, refusal);
    endian::write::<8>(out, 8, value);
    endian::write::<8>(out, 16, swapped);
    endian::write::<8>(out, 24, reads);
    endian::write::<8>(out, 32, writes);
}
