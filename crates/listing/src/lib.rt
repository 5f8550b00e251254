// The published tables, written row by row to any writer, and printed as one page: as text, in columns under a heading for each table; or comma
// separated, under one line of names, with a cell left empty where a table does not have it.
#![tactic(auto)]

use protocol::rules::Bus;
use protocol::state::{Mode, State};
use rows::{Row, Source, Table};
use std::io::{Cursor, Result, Write};
use words::access::Outcome;

// An enum and no trait: the two forms share the columns of a row and no step, and `put_tables` alone tells them apart.
#[derive(Clone, Copy)]
pub enum Form {
    Text,
    Comma,
}

// What stands above all tables in text.
const FRONT: &str = "\
# What the model does with every order.
# A port holds a line if its entry at the line's index is not I and has the line's tag. It owns the line if it holds it in O or M.
# S and E have a mode, write through or write back. O and M are write back. An entry that becomes I keeps its tag and its data.
# An order goes by one row of its own table. A miss goes by a row of take-over too, and each port that hears a command by a row of
# snoop. reads and writes count the memory words that are fetched and stored; the order's counts are the sums over its rows.
# All that stands left of `next` is of the time before the order: an owner's word is taken before the owner hears anything.
# audit: yes if tables that pass the audit meet the row, no if only tables that fail it do. A row that no tables meet is not printed.
# include/moesi.h explains the fields of an order, the ranges and the audit.
";

// The headings of the tables in text: an empty line, what the columns say, and their names.
const ACCESS_HEADING: &str = "
# access: a read, write or swap by a port. mode: the order's mode, or that of the range that the line is in. shared: another port holds
# the line. dirty: some port owns it, and the port itself counts. state: how the port sees the line, I where it misses. word: where the
# line's word comes from, the port's own entry, the lowest-numbered owner, or memory. A read and a swap answer this word.
# read: a read, or a swap that fails; so a swap's command goes out when its comparison is known. write: a write or a successful swap
# that changes the line's word. rewrite: a write or a successful swap that leaves all 64 bits as they were (a silent store).
# sends: the command that every other holder hears. A write or rewrite merges the operand into the word, byte by byte under the mask.
# The word then goes into the port's entry, and into memory where the column writes is 1.
access   mode     shared  dirty   state      next       sends           word    reads   writes  audit
";

const SNOOP_HEADING: &str = "
# snoop: what a holder does when it hears a command. On an access every other holder hears, on a device write every holder.
# takes: the holder takes the line's new word.
hears           state      next       takes   reads   writes  audit
";

const TAKE_OVER_HEADING: &str = "
# take-over: a miss takes over the port's own entry at the line's index. That entry is I, or it is of another line. Where writes is 1,
# its word is stored at its home line before all else. Then the entry has the line's tag.
state      reads   writes  audit
";

const FLUSH_HEADING: &str = "
# flush: a flush by a port. No other port hears of it. Where writes is 1, the port's word is stored in memory. state: how the port
# sees the line. I: the port does not hold the line, and its entry stays as it is.
state      next       reads   writes  audit
";

const DEVICE_WRITE_HEADING: &str = "
# device-write: a device writes. The operand is merged into the word, and the word is stored in memory. Every holder hears the command.
dirty   sends           word    reads   writes  audit
";

const DEVICE_READ_HEADING: &str = "
# device-read: a device reads. The answer is memory's word, whatever the caches hold. No port hears of it.
word    reads   writes  audit
";

// The first line of the comma separated form.
const NAMES: &str =
    "table,access,mode,shared,dirty,hears,state,next,sends,word,takes,reads,writes,audit";

fn heading(table: Table) -> &'static str {
    match table {
        Table::Access => ACCESS_HEADING,
        Table::Snoop => SNOOP_HEADING,
        Table::TakeOver => TAKE_OVER_HEADING,
        Table::Flush => FLUSH_HEADING,
        Table::DeviceWrite => DEVICE_WRITE_HEADING,
        Table::DeviceRead => DEVICE_READ_HEADING,
    }
}

fn table_name(table: Table) -> &'static str {
    match table {
        Table::Access => "access",
        Table::Snoop => "snoop",
        Table::TakeOver => "take-over",
        Table::Flush => "flush",
        Table::DeviceWrite => "device-write",
        Table::DeviceRead => "device-read",
    }
}

// The words of the tables, here and in the functions below, and no `Display`: elsewhere these types may be shown in other words.
fn outcome_text(outcome: Outcome) -> &'static str {
    match outcome {
        Outcome::Reads => "read",
        Outcome::Writes => "write",
        Outcome::Rewrites => "rewrite",
    }
}

fn mode_text(mode: Mode) -> &'static str {
    match mode {
        Mode::Through => "through",
        Mode::Back => "back",
    }
}

// A state's letter, with its mode where it has one.
fn state_text(state: State) -> &'static str {
    match state {
        State::I => "I",
        State::S(Mode::Through) => "S-through",
        State::S(Mode::Back) => "S-back",
        State::E(Mode::Through) => "E-through",
        State::E(Mode::Back) => "E-back",
        State::O => "O",
        State::M => "M",
    }
}

fn bus_text(bus: Bus) -> &'static str {
    match bus {
        Bus::Quiet => "quiet",
        Bus::Invalidate => "invalidate",
        Bus::ShareOwned => "share-owned",
        Bus::Share(Mode::Through) => "share-through",
        Bus::Share(Mode::Back) => "share-back",
        Bus::Update(Mode::Through) => "update-through",
        Bus::Update(Mode::Back) => "update-back",
    }
}

fn source_text(source: Source) -> &'static str {
    match source {
        Source::Own => "own",
        Source::Owner => "owner",
        Source::Memory => "memory",
    }
}

fn truth_text(b: bool) -> &'static str {
    if b { "yes" } else { "no" }
}

fn count_text(b: bool) -> &'static str {
    if b { "1" } else { "0" }
}

// The cells of a row between the table's name and the last one, and how wide their columns are in text. A table lacks some of them.
fn columns(row: Row) -> [(Option<&'static str>, usize); 12] {
    [
        (row.access.map(outcome_text), 9),
        (row.mode.map(mode_text), 9),
        (row.shared.map(truth_text), 8),
        (row.dirty.map(truth_text), 8),
        (row.hears.map(bus_text), 16),
        (row.state.map(state_text), 11),
        (row.next.map(state_text), 11),
        (row.sends.map(bus_text), 16),
        (row.word.map(source_text), 8),
        (row.takes.map(truth_text), 8),
        (Some(count_text(row.reads)), 8),
        (Some(count_text(row.writes)), 8),
    ]
}

// As text: a heading where a table begins, and no cell where the table does not have it.
fn put_text<W: Write>(out: &mut W) -> Result<()> {
    write!(out, "{FRONT}")?;
    let mut above = None;
    for row in (0..cells::CASES).filter_map(cells::printed_row) {
        if above != Some(row.table) {
            write!(out, "{}", heading(row.table))?;
            above = Some(row.table);
        }
        for (cell, width) in columns(row) {
            if let Some(text) = cell {
                write!(out, "{text:width$}")?;
            }
        }
        writeln!(out, "{}", truth_text(row.audited))?;
    }
    Ok(())
}

// A cell and its comma. (With a format for each cell the tables take 1.4 times as long.)
fn put_cell<W: Write>(out: &mut W, text: &str) -> Result<()> {
    out.write_all(text.as_bytes())?;
    out.write_all(b",")
}

// Comma separated: the table's name in each row, and an empty cell where the table does not have it.
fn put_commas<W: Write>(out: &mut W) -> Result<()> {
    writeln!(out, "{NAMES}")?;
    for row in (0..cells::CASES).filter_map(cells::printed_row) {
        put_cell(out, table_name(row.table))?;
        for (cell, _) in columns(row) {
            put_cell(out, cell.unwrap_or(""))?;
        }
        writeln!(out, "{}", truth_text(row.audited))?;
    }
    Ok(())
}

// All tables.
pub fn put_tables<W: Write>(out: &mut W, form: Form) -> Result<()> {
    match form {
        Form::Text => put_text(out),
        Form::Comma => put_commas(out),
    }
}

// Room for all tables, in either form. It is of fixed size and on the stack: no program here takes memory from a heap.
const ROOM: usize = 32768;

// All tables as one page, laid out on the stack and written to standard output at once.
pub fn print_tables(rt: &impl Print, form: Form) -> Result<()> {
    let mut page = Cursor::new([0u8; ROOM]);
    put_tables(&mut page, form)?;
    console::print_page(rt, &page)
}
