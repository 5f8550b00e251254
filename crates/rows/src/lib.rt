// The rows of the published tables: what a row is of, and the cells that stand in it. What they are is defined in specs/.
#![tactic(auto)]

use protocol::rules::Bus;
use protocol::state::{Mode, State};
use words::access::Outcome;

// The tables, in their order.
#[derive(Clone, Copy, Debug, PartialEq, Eq)]
pub enum Table {
    Access,
    Snoop,
    TakeOver,
    Flush,
    DeviceWrite,
    DeviceRead,
}

// Where a line's word comes from: the port's own entry, the lowest-numbered owner, or memory.
#[derive(Clone, Copy, Debug, PartialEq, Eq)]
pub enum Source {
    Own,
    Owner,
    Memory,
}

// What a row is of.
#[derive(Clone, Copy, Debug, PartialEq, Eq)]
pub enum Case {
    // An access by a port: what it comes to, its mode, whether another port holds the line, whether some port owns it, the port itself
    // included, and the state in which the port sees the line, I where it misses.
    Own {
        outcome: Outcome,
        mode: Mode,
        shared: bool,
        dirty: bool,
        state: State,
    },
    // A holder that hears a bus command in a state.
    Snoop {
        hears: Bus,
        state: State,
    },
    // The entry that a miss takes over, in a state, I or of another line.
    TakeOver {
        state: State,
    },
    // A flush by a port that sees the line in a state.
    Flush {
        state: State,
    },
    // A device write of a line that some port owns, or none.
    DeviceWrite {
        dirty: bool,
    },
    DeviceRead,
}

// A row by its cells: the table, then what is known before, what follows, and whether tables that pass the audit have the case. A table lacks
// some of the cells.
#[derive(Clone, Copy, Debug, PartialEq, Eq)]
pub struct Row {
    pub table: Table,
    pub access: Option<Outcome>,
    pub mode: Option<Mode>,
    pub shared: Option<bool>,
    pub dirty: Option<bool>,
    pub hears: Option<Bus>,
    pub state: Option<State>,
    pub next: Option<State>,
    pub sends: Option<Bus>,
    pub word: Option<Source>,
    pub takes: Option<bool>,
    pub reads: bool,
    pub writes: bool,
    pub audited: bool,
}
