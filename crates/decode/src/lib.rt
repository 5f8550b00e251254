// An order word taken apart, once.
#![tactic(auto)]

ghost use Rattle.std.specs.Prelude.{◌≡◌, cond};
ghost use Rattle.model.specs.Order.{bits, kind_number, kind_at, has_port, mode_in_force, checked, call_of, decode, decoded};
ghost use Rattle.decode.specs.Order.{order};

use model::order::{Call, Kind};
use protocol::state::Mode;
use refusals::Refusal;
use shape::Shape;
use words::access::Access;

// The kind that an order word says, bits 0-2.
pub fn kind_of(w: u64) -> usize
    ensures { result ≡ bits w 0 3 }
{
    (w / 1 % 8) as usize
}

// Write back, or write through, from one bit: a `From<bool>` would not say which is which.
fn mode_of(back: bool) -> Mode
    ensures { result ≡ cond back Mode.Back Mode.Through }
{
    if back { Mode::Back } else { Mode::Through }
}

// The mode in which an order of word w runs on line a: write back in the scratch range, which is looked up first, write through in the device
// range, and elsewhere what bit 3 says. Nothing else reads that bit.
#[tactic(auto, using(crate::proofs::Modes::as_said, crate::proofs::Modes::in_force))]
fn mode_in_force(shape: Shape, w: u64, a: usize) -> Mode
    ensures { result ≡ mode_in_force shape w a }
{
    let said = w / 8 % 2 == 1;
    if shape.has_no_ranges() {
        return mode_of(said);
    }
    mode_of(shape.scratch.has(a) | (!shape.device.has(a) & said))
}

// The kind of a number, if it is one. It is no `TryFrom`: the one error is the refusal that its one caller gives.
#[tactic(auto, unfolding(model::specs::Order::kind_at))]
fn kind_at(n: usize) -> Option<Kind>
    ensures { result ≡ kind_at n }
{
    match n {
        0 => Some(Kind::Read),
        1 => Some(Kind::Write),
        2 => Some(Kind::Swap),
        3 => Some(Kind::Flush),
        4 => Some(Kind::DeviceRead),
        5 => Some(Kind::DeviceWrite),
        _ => None,
    }
}

// The kinds that name a port.
fn has_port(kind: Kind) -> bool
    ensures { result ≡ has_port (kind_number kind) }
{
    match kind {
        Kind::Read | Kind::Write | Kind::Swap | Kind::Flush => true,
        Kind::DeviceRead | Kind::DeviceWrite => false,
    }
}

// What an order of a kind asks. Each kind takes the fields that it uses.
#[tactic(auto, unfolding(model::specs::Order::call_of))]
fn call_of(kind: Kind, m: Mode, port: usize, mask: u8, compare: u64, x: u64) -> Call
    ensures { result ≡ call_of (kind_number kind) m port mask compare x }
{
    match kind {
        Kind::Read => Call::ByPort(Access::Read, m, port),
        Kind::Write => Call::ByPort(Access::Write(mask, x), m, port),
        Kind::Swap => Call::ByPort(Access::Swap(mask, x, compare), m, port),
        Kind::Flush => Call::Flush(port),
        Kind::DeviceRead => Call::DeviceRead,
        Kind::DeviceWrite => Call::DeviceWrite(mask, x),
    }
}

// The port is checked first, where the kind has one, then the line, and a swap's mask; else the call and its line. (The call is made last: made
// before the checks it takes a jump on the kind by itself, and an order of the program `totals` 276 instructions for 247.)
#[tactic(auto, using(crate::proofs::Numbers::known), unfolding(model::specs::Order::checked))]
fn checked_call(
    shape: Shape,
    kind: Kind,
    m: Mode,
    port: usize,
    mask: u8,
    line: usize,
    compare: u64,
    x: u64,
) -> Result<(Call, usize), Refusal>
    ensures { decoded result ≡ checked shape (kind_number kind) port mask line (call_of (kind_number kind) m port mask compare x) }
{
    if has_port(kind) & (shape.ports <= port) {
        return Err(Refusal::Port);
    }
    if shape.lines <= line {
        return Err(Refusal::Line);
    }
    if matches!(kind, Kind::Swap) & !matches!(mask, 0x0F | 0xF0) {
        return Err(Refusal::Mask);
    }
    Ok((call_of(kind, m, port, mask, compare, x), line))
}

// The fields of the word: 0-2 kind, 3 mode, 4-7 port, 8-15 byte mask, 16-31 line, 32-63 compare value.
#[tactic(auto, unfolding(model::specs::Order::decode))]
pub fn decode_order(shape: Shape, w: u64, x: u64) -> Result<(Call, usize), Refusal>
    ensures { decoded result ≡ decode shape (order w x) }
{
    let Some(kind) = kind_at(kind_of(w)) else {
        return Err(Refusal::Kind);
    };
    let port = (w / 16 % 16) as usize;
    let mask = (w / 256 % 256) as u8;
    let line = (w / 65536 % 65536) as usize;
    let compare = w / 4294967296 % 4294967296;
    checked_call(
        shape,
        kind,
        mode_in_force(shape, w, line),
        port,
        mask,
        line,
        compare,
        x,
    )
}
