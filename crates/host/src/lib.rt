// The calls of a C host on bytes, as definitions, with what is proved of any list of them; and what a call with a record puts and counts.
#![tactic(auto)]

ghost use Rattle.std.specs.Prelude.{◌≡◌, length};
ghost use Rattle.host.specs.Host.{refusal_put};
ghost use Rattle.host.specs.Totals.{counts_in};

use model::answer::Answer;

// The five numbers of a refusal, which is a number as C has it, where the slice has its 40 bytes; one of another length is left alone.
#[tactic(auto, using(crate::proofs::Totals::put_fits, crate::proofs::Totals::put_other))]
pub fn put_refusal(out: &mut [u8], n: u64)
    ensures { out.new ≡ refusal_put n out.old }
{
    if out.len() == 40 {
        answers::put_answer(out, n, 0, 0, 0, 0);
    }
}

// What is counted of a call of step that returned n: its refusal, or, of an accepted order, the numbers that it wrote. The value is not
// counted.
#[tactic(auto, using(crate::proofs::Totals::counts_refused, crate::proofs::Totals::counts_accepted))]
pub fn counts_in(n: u64, out: &[u8]) -> Answer
    requires { n ≡ 0 → length out.now ≡ 40 }
    ensures { result ≡ counts_in n out.now }
{
    if n != 0 {
        return answers::refuse(n);
    }
    Answer {
        refusal: 0,
        value: 0,
        swapped: endian::read::<8>(out, 16),
        reads: endian::read::<8>(out, 24),
        writes: endian::read::<8>(out, 32),
    }
}
