// An order, taken apart.
use protocol::state::Mode;
use words::access::Access;

// How many kinds of orders there are, from kind 0 up.
pub const KINDS: usize = 6;

// The kinds, in the order of their numbers.
#[derive(Clone, Copy, Debug, PartialEq, Eq)]
pub enum Kind {
    Read,
    Write,
    Swap,
    Flush,
    DeviceRead,
    DeviceWrite,
}

// What an order asks of its line: an access in a mode, by a port; a flush, by a port; a device read; a device write, with a mask and an
// operand.
#[derive(Clone, Copy, Debug, PartialEq, Eq)]
pub enum Call {
    ByPort(Access, Mode, usize),
    Flush(usize),
    DeviceRead,
    DeviceWrite(u8, u64),
}
