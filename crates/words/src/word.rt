// A 64-bit word: merging bytes under a mask, with whether that changes it, and the half that a swap compares.
ghost use Rattle.std.specs.Prelude.{◌≡◌, cond, eqb, ◌%◌, ◌<◌};
ghost use Rattle.words.specs.Word.{half, merge, merged};

// A merge: the word after it, and whether that is another word than before.
#[derive(Clone, Copy, Debug, PartialEq, Eq)]
pub struct Merge {
    pub word: u64,
    pub changed: bool,
}

// The lowest byte of x where the mask bit is 1, else of w.
fn pick(bit: u8, x: u64, w: u64) -> u64
    ensures { (result ≡ cond (eqb bit 1) (x % 256) (w % 256)) × (result < 256) }
{
    if bit == 1 { x % 256 } else { w % 256 }
}

// The word w with byte k of the operand x where bit k of the mask is 1. The whole word is the common case.
fn merged_word(mask: u8, w: u64, x: u64) -> u64
    ensures { result ≡ merge mask w x }
{
    if mask == 0xFF {
        return x;
    }
    let b0 = pick(mask % 2, x, w);
    let b1 = pick(mask / 2 % 2, x / 256, w / 256);
    let b2 = pick(mask / 4 % 2, x / 65536, w / 65536);
    let b3 = pick(mask / 8 % 2, x / 16777216, w / 16777216);
    let b4 = pick(mask / 16 % 2, x / 4294967296, w / 4294967296);
    let b5 = pick(mask / 32 % 2, x / 1099511627776, w / 1099511627776);
    let b6 = pick(mask / 64 % 2, x / 281474976710656, w / 281474976710656);
    let b7 = pick(mask / 128 % 2, x / 72057594037927936, w / 72057594037927936);
    b0 + b1 * 256
        + b2 * 65536
        + b3 * 16777216
        + b4 * 4294967296
        + b5 * 1099511627776
        + b6 * 281474976710656
        + b7 * 72057594037927936
}

// The merge of the operand x into the word w.
pub fn merged(mask: u8, w: u64, x: u64) -> Merge
    ensures { result ≡ merged mask w x }
{
    let word = merged_word(mask, w, x);
    Merge {
        word,
        changed: word != w,
    }
}

// What a swap compares: the lower half under mask 0x0F, else the upper half.
pub fn half_of(mask: u8, w: u64) -> u64
    ensures { result ≡ half mask w }
{
    if mask == 0x0F {
        w % 4294967296
    } else {
        w / 4294967296
    }
}
