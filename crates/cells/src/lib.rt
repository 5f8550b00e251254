// The rows of the published tables as code: the cases in their order, which of them have a row, and the cells of each.
#![tactic(auto, unfolding(rows::specs::Cells::row_of, rows::specs::Cells::reads_in, rows::specs::Cells::writes_in, rows::specs::Cases::audited, protocol::specs::Rules::flush_rule))]

ghost use Rattle.std.specs.Prelude.{◌≡◌, ◌↔◌, true, IsSome, IfSome};
ghost use Rattle.protocol.specs.Coded.{bus_at, mode_at};
ghost use Rattle.rows.specs.Cases.{outcome_in_turn, state_in_turn, arises, held_through, printed, own_audited, snoop_audited, cases, own_at, case_at};
ghost use Rattle.rows.specs.Cells.{source_of, blank_row, row_of};
ghost use Rattle.rows.specs.Numbers.{table_number, source_number, cells};

use protocol::rules::{self, Bus};
use protocol::state::{Mode, State};
use rows::{Case, Row, Source, Table};
use words::access::Outcome;

// How many cases there are, those that have no row among them (`case_at` ensures it).
pub const CASES: u8 = 227;

// A digit of a case's number, here and in the three functions below: any other digit stands for the last value, so a conversion would have no error.
#[tactic(auto, unfolding(rows::specs::Cases::outcome_in_turn))]
fn outcome_at(n: u8) -> Outcome
    ensures { result ≡ outcome_in_turn n }
{
    match n {
        0 => Outcome::Reads,
        1 => Outcome::Writes,
        _ => Outcome::Rewrites,
    }
}

#[tactic(auto, unfolding(protocol::specs::Coded::mode_at))]
fn mode_at(n: u8) -> Mode
    ensures { result ≡ mode_at n }
{
    match n {
        0 => Mode::Through,
        _ => Mode::Back,
    }
}

// The command of a number.
#[tactic(auto, unfolding(protocol::specs::Coded::bus_at))]
fn bus_at(n: u8) -> Bus
    ensures { result ≡ bus_at n }
{
    match n {
        0 => Bus::Quiet,
        1 => Bus::Invalidate,
        2 => Bus::ShareOwned,
        3 => Bus::Share(Mode::Through),
        4 => Bus::Share(Mode::Back),
        5 => Bus::Update(Mode::Through),
        _ => Bus::Update(Mode::Back),
    }
}

// The seven states in turn.
#[tactic(auto, unfolding(rows::specs::Cases::state_in_turn))]
fn state_at(n: u8) -> State
    ensures { result ≡ state_in_turn n }
{
    match n {
        0 => State::I,
        1 => State::S(Mode::Through),
        2 => State::E(Mode::Through),
        3 => State::S(Mode::Back),
        4 => State::E(Mode::Back),
        5 => State::O,
        _ => State::M,
    }
}

// The case of an access at a number below 168: its outcome, mode, shared, dirty and state are digits of the number.
fn own_at(k: u8) -> Case
    ensures { result ≡ own_at k }
{
    Case::Own {
        outcome: outcome_at(k / 56),
        mode: mode_at(k / 28 % 2),
        shared: k / 14 % 2 == 1,
        dirty: k / 7 % 2 == 1,
        state: state_at(k % 7),
    }
}

// The case at a number. There are CASES of them.
#[tactic(auto, using(crate::proofs::Parts::parts))]
pub fn case_at(k: u8) -> Case
    ensures case { result ≡ case_at k }
    ensures count { CASES ≡ cases }
{
    match k {
        0..168 => own_at(k),
        168..210 => Case::Snoop {
            hears: bus_at((k - 168) / 6),
            state: state_at((k - 168) % 6 + 1),
        },
        210..217 => Case::TakeOver {
            state: state_at(k - 210),
        },
        217..224 => Case::Flush {
            state: state_at(k - 217),
        },
        224..226 => Case::DeviceWrite { dirty: k == 225 },
        226.. => Case::DeviceRead,
    }
}

// Held in write through.
fn is_through(s: State) -> bool
    ensures { result ≡ held_through s }
{
    matches!(s, State::S(Mode::Through) | State::E(Mode::Through))
}

// The case of an access can arise.
#[tactic(auto, unfolding(rows::specs::Cases::arises))]
fn can_arise(shared: bool, dirty: bool, s: State) -> bool
    ensures { result ≡ arises shared dirty s }
{
    if s.is_owner() {
        dirty
    } else {
        !dirty || shared
    }
}

// The case has a row: all but those of an access that can't arise, and a port in I hears nothing.
#[tactic(auto, unfolding(rows::specs::Cases::printed))]
pub fn is_printed(case: Case) -> bool
    ensures { result ≡ printed case }
{
    match case {
        Case::Own {
            shared,
            dirty,
            state,
            ..
        } => can_arise(shared, dirty, state),
        Case::Snoop { state, .. } => state.is_valid(),
        Case::TakeOver { .. } | Case::Flush { .. } | Case::DeviceWrite { .. } | Case::DeviceRead =>
            true,
    }
}

// Tables that pass the audit have the case of an access.
#[tactic(auto, unfolding(rows::specs::Cases::own_audited))]
fn is_own_audited(shared: bool, dirty: bool, s: State) -> bool
    ensures { result ≡ own_audited shared dirty s }
{
    can_arise(shared, dirty, s) && (!s.is_exclusive() || !shared) && (!is_through(s) || !dirty)
}

// Tables that pass the audit have a holder in state s that hears the command.
#[tactic(auto, unfolding(rows::specs::Cases::snoop_audited))]
fn is_snoop_audited(bus: Bus, s: State) -> bool
    ensures { result ≡ snoop_audited bus s }
{
    match bus {
        Bus::Quiet | Bus::Update(_) => !s.is_exclusive(),
        Bus::Share(Mode::Back) => !s.is_exclusive() && is_through(s),
        Bus::Share(Mode::Through) | Bus::Invalidate | Bus::ShareOwned => true,
    }
}

// Where the line's word comes from.
#[tactic(auto, unfolding(rows::specs::Cells::source_of))]
fn source_of(hit: bool, dirty: bool) -> Source
    ensures { source_number result ≡ source_of hit dirty }
{
    match (hit, dirty) {
        (true, _) => Source::Own,
        (false, true) => Source::Owner,
        (false, false) => Source::Memory,
    }
}

// A row of a table with no cell filled in, with no memory access, and met on tables that pass the audit.
fn blank_row(table: Table) -> Row
    ensures { cells result ≡ blank_row (table_number table) }
{
    Row {
        table,
        access: None,
        mode: None,
        shared: None,
        dirty: None,
        hears: None,
        state: None,
        next: None,
        sends: None,
        word: None,
        takes: None,
        reads: false,
        writes: false,
        audited: true,
    }
}

// An access by a port.
fn own_row(outcome: Outcome, mode: Mode, shared: bool, dirty: bool, s: State) -> Row
    ensures { cells result ≡ row_of (Case.Own outcome mode shared dirty s) }
{
    let hit = s.is_valid();
    let rule = rules::own_rule(outcome, mode, shared, dirty, s);
    Row {
        access: Some(outcome),
        mode: Some(mode),
        shared: Some(shared),
        dirty: Some(dirty),
        state: Some(s),
        next: Some(rule.own),
        sends: Some(rule.bus),
        word: Some(source_of(hit, dirty)),
        reads: !hit && !dirty,
        writes: rule.stores,
        audited: is_own_audited(shared, dirty, s),
        ..blank_row(Table::Access)
    }
}

// A holder in state s that hears the command.
fn snoop_row(hears: Bus, s: State) -> Row
    ensures { cells result ≡ row_of (Case.Snoop hears s) }
{
    Row {
        hears: Some(hears),
        state: Some(s),
        next: Some(rules::snooped(hears, s)),
        takes: Some(hears.hands_word()),
        audited: s.is_valid() && is_snoop_audited(hears, s),
        ..blank_row(Table::Snoop)
    }
}

// The entry that a miss takes over.
fn taken_row(s: State) -> Row
    ensures { cells result ≡ row_of (Case.TakeOver s) }
{
    Row {
        state: Some(s),
        writes: s.is_owner(),
        ..blank_row(Table::TakeOver)
    }
}

// A flush by a port.
fn flush_row(s: State) -> Row
    ensures { cells result ≡ row_of (Case.Flush s) }
{
    Row {
        state: Some(s),
        next: Some(State::I),
        writes: s.is_owner(),
        ..blank_row(Table::Flush)
    }
}

// A device write.
fn device_write_row(dirty: bool) -> Row
    ensures { cells result ≡ row_of (Case.DeviceWrite dirty) }
{
    Row {
        dirty: Some(dirty),
        sends: Some(Bus::Invalidate),
        word: Some(source_of(false, dirty)),
        reads: !dirty,
        writes: true,
        ..blank_row(Table::DeviceWrite)
    }
}

// A device read.
fn device_read_row() -> Row
    ensures { cells result ≡ row_of Case.DeviceRead }
{
    Row {
        word: Some(source_of(false, false)),
        reads: true,
        ..blank_row(Table::DeviceRead)
    }
}

// The row of a case.
pub fn row_of(case: Case) -> Row
    ensures { cells result ≡ row_of case }
{
    match case {
        Case::Own {
            outcome,
            mode,
            shared,
            dirty,
            state,
        } => own_row(outcome, mode, shared, dirty, state),
        Case::Snoop { hears, state } => snoop_row(hears, state),
        Case::TakeOver { state } => taken_row(state),
        Case::Flush { state } => flush_row(state),
        Case::DeviceWrite { dirty } => device_write_row(dirty),
        Case::DeviceRead => device_read_row(),
    }
}

// The row of the case at a number, where it has one.
pub fn printed_row(k: u8) -> Option<Row>
    ensures printed { IsSome result ↔ (printed (case_at k) ≡ true) }
    ensures row { IfSome result (λ r. cells r ≡ row_of (case_at k)) }
{
    let case = case_at(k);
    if is_printed(case) {
        Some(row_of(case))
    } else {
        None
    }
}
