// What a step answers.

// The five numbers: the refusal, 0 if none; the value; 1 where a swap succeeded; the memory words fetched and stored. The refusal is a number here
// and no Result, for the C interface writes all five.
#[derive(Clone, Copy, Debug, Default, PartialEq, Eq)]
pub struct Answer {
    pub refusal: u64,
    pub value: u64,
    pub swapped: u64,
    pub reads: u64,
    pub writes: u64,
}
