// Runs the fourteen orders of the scope, then device writes, then orders in ranges, then an order of each refusal, through the C interface's
// functions, and prints for each its place, the five numbers, the state bytes and the words of main memory; and, after each part, the audit and
// where a line's word stands.
// What it prints is kept in the file stdout.
#![tactic(auto)]

use shape::Shape;
use shape::range::Range;
use std::io::{Cursor, Result, Write};

// Main memory and the tables of two ports, one set and two lines, as a host lends them.
#[derive(Drop)]
struct Machine {
    memory: [u8; 16],
    tags: [u8; 8],
    states: [u8; 2],
    data: [u8; 16],
}

// Words, and tags, as the bytes have them.
fn two_words(bytes: &[u8; 16]) -> [u64; 2] {
    [endian::read::<8>(bytes, 0), endian::read::<8>(bytes, 8)]
}

fn two_tags(bytes: &[u8; 8]) -> [u32; 2] {
    [
        endian::read::<4>(bytes, 0) as u32,
        endian::read::<4>(bytes, 4) as u32,
    ]
}

fn put_words<W: Write>(out: &mut W, words: &[u64]) -> Result<()> {
    write!(out, " |")?;
    for w in words {
        write!(out, " {w}")?;
    }
    writeln!(out)
}

impl Machine {
    // Memory of the words 5 and 7, and tables of ones, which are then made fresh.
    fn fresh() -> Machine {
        let mut memory = [0u8; 16];
        endian::write::<8>(&mut memory, 0, 5);
        endian::write::<8>(&mut memory, 8, 7);
        let mut tags = [1u8; 8];
        let mut states = [1u8; 2];
        let mut data = [1u8; 16];
        moesi::moesi_fresh(
            2,
            1,
            2,
            0,
            0,
            0,
            0,
            &memory,
            &mut tags,
            &mut states,
            &mut data,
        );
        Machine {
            memory,
            tags,
            states,
            data,
        }
    }

    // One order, in a shape of the host's. Returns the bytes of its answer.
    fn step(&mut self, s: Shape, word: u64, operand: u64) -> [u8; 40] {
        let mut answer = [0u8; 40];
        let Machine {
            memory,
            tags,
            states,
            data,
        } = self;
        moesi::moesi_step(
            s.ports,
            s.sets,
            s.lines,
            s.scratch.first,
            s.scratch.count,
            s.device.first,
            s.device.count,
            word,
            operand,
            memory,
            tags,
            states,
            data,
            &mut answer,
        );
        answer
    }

    // A list of orders: for each its place, the five numbers, the state bytes, main memory.
    fn run<W: Write>(&mut self, out: &mut W, s: Shape, orders: &[(u64, u64)]) -> Result<()> {
        for (k, &(word, operand)) in orders.iter().enumerate() {
            let answer = self.step(s, word, operand);
            write!(out, "{} ", k + 1)?;
            for number in answer.chunks_exact(8) {
                write!(out, "{} ", endian::read::<8>(number, 0))?;
            }
            write!(out, "|")?;
            for b in &self.states {
                write!(out, " {b}")?;
            }
            put_words(out, &two_words(&self.memory))?;
        }
        Ok(())
    }

    // The audit's refusal, and 1 for yes.
    fn audit<W: Write>(&self, out: &mut W) -> Result<()> {
        let mut verdict = [0u8; 1];
        let refusal = moesi::moesi_audit(
            2,
            1,
            2,
            0,
            0,
            0,
            0,
            &self.memory,
            &self.tags,
            &self.states,
            &self.data,
            &mut verdict,
        );
        writeln!(out, "audit {refusal} {} ", verdict[0])
    }

    // Where line a's word stands, and the view of it: on words, as finding takes them.
    fn look<W: Write>(&self, out: &mut W, a: usize) -> Result<()> {
        let s = shape_of(2, 2);
        let lines = two_words(&self.memory);
        let labels = two_tags(&self.tags);
        let words = two_words(&self.data);
        match find::find_line(s, &lines, &labels, &self.states, &words, a) {
            Ok(Some(p)) => write!(out, "port {p} ")?,
            Ok(None) => write!(out, "memory ")?,
            Err(r) => write!(out, "refused {} ", u64::from(r))?,
        }
        put_words(
            out,
            find::view_line(s, &lines, &labels, &self.states, &words, a),
        )
    }
}

// A shape of one set, without ranges.
fn shape_of(ports: usize, lines: usize) -> Shape {
    Shape::unranged(ports, 1, lines)
}

// Two ports, one set and two lines, with a scratch range and a device range that start at line 0.
fn ranged(scratch: usize, device: usize) -> Shape {
    Shape {
        scratch: Range {
            first: 0,
            count: scratch,
        },
        device: Range {
            first: 0,
            count: device,
        },
        ..shape_of(2, 2)
    }
}

// Orders, each a word and its operand. In the word: kind, mode, port, mask, line and compare value.

// Those that the scope lists.
const FOURTEEN: [(u64, u64); 14] = [
    (0x8, 0),
    (0x18, 0),
    (0xFF19, 9),
    (0x4, 0),
    (0x0, 0),
    (0x4, 0),
    (0x900000F0A, 4),
    (0x900000F1A, 0),
    (0x10101, 0x1FF),
    (0x10013, 0),
    (0x10001F01A, 0),
    (0x10019, 0),
    (0x10001F002, 0),
    (0x20, 0),
];

// A device writes byte 1 of line 1, which port 0 holds clean (port and mode, all ones in the word, are ignored); port 1 writes the line in
// write back and port 0 reads it; a device writes byte 0, merged into the owner's word; port 0 reads what it wrote.
const DEVICE: [(u64, u64); 5] = [
    (0x102FD, 0xAB00),
    (0x1FF19, 7),
    (0x10008, 0),
    (0x10105, 0xFF09),
    (0x10008, 0),
];

// Refusal 4, kinds 6 and 7; 5, port 2; 6, line 2, by a device read and by a device write whose port is not there either; 7, the masks 0 and 0xFF.
const REFUSED: [(u64, u64); 7] = [
    (0x6, 0),
    (0x7, 0),
    (0x23, 0),
    (0x20004, 0),
    (0x200F5, 0),
    (0x2, 0),
    (0xFF02, 0),
];

// Where an entry is no state: an access, a flush and a device write are refused with 8; a device read looks at no entry.
const UNSOUND: [(u64, u64); 4] = [(0x8, 0), (0x13, 0), (0x5, 0), (0x4, 0)];

// Line 0 in both ranges: a write-through write, which runs write back, and a device read, which misses it; then line 1 in the device range alone: a
// write-back write, which runs write through, and a device read.
const RANGES: [(u64, u64); 4] = [(0xFF01, 9), (0x4, 0), (0x1FF09, 8), (0x10004, 0)];

// Refusal 2, nine ports; 3, a memory of two words for one line; 12, a range of three lines of two; and the others.
fn refusals<W: Write>(out: &mut W, machine: &mut Machine) -> Result<()> {
    for s in [shape_of(9, 2), shape_of(2, 1), ranged(3, 0), ranged(0, 3)] {
        machine.run(out, s, &[(0x8, 0)])?;
    }
    machine.run(out, shape_of(2, 2), &REFUSED)?;
    machine.states[0] = 3;
    machine.run(out, shape_of(2, 2), &UNSOUND)
}

// The whole run.
fn play<W: Write>(out: &mut W) -> Result<()> {
    let mut machine = Machine::fresh();
    machine.run(out, shape_of(2, 2), &FOURTEEN)?;
    machine.audit(out)?;
    for a in 0..3 {
        machine.look(out, a)?;
    }
    machine.run(out, shape_of(2, 2), &DEVICE)?;
    machine.audit(out)?;
    machine.look(out, 1)?;
    machine.run(out, ranged(1, 2), &RANGES)?;
    machine.audit(out)?;
    machine.look(out, 1)?;
    refusals(out, &mut machine)?;
    machine.audit(out)?;
    machine.look(out, 0)
}

// Room for all that is printed. It is of fixed size and on the stack (no heap is a rule here), and written at once.
const ROOM: usize = 4096;

fn main(rt: HostRuntime) -> Result<()> {
    let mut page = Cursor::new([0u8; ROOM]);
    play(&mut page)?;
    console::print_page(&rt, &page)
}
