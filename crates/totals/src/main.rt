// Reads traces, one after another, from standard input, and prints a row of totals for each: its number from 1, the accepted orders of each
// kind, refused orders, memory reads, memory writes, and swaps that succeeded. The last row, number 0, is their sum. A refused trace prints
// its refusal and ends the reading. What it prints for the traces in the file stdin is kept in the file stdout.
#![tactic(auto)]

ghost use Rattle.std.specs.Prelude.{◌≡◌, ◌≤◌, IfOk, length};
ghost use Rattle.counters.specs.Totals.{record_length};

use console::{print_line, read_full};
use counters::lent::{PLACES, RECORD_BYTES};
use std::io::{Read, Result, Write};

// The most traces that are read. A total of a trace is at most 2 x 2,048, so a sum of 9,999 traces is below 2 to the 26: no sum passes 64 bits.
const MOST_TRACES: u64 = 9999;

// Room for the longest trace, of fixed size and on the stack (no heap is a rule here); only one is kept.
const ROOM: usize = 16 + 16 * replay::MAX_ORDERS;

// A row's numbers, with a blank between two.
fn put_row<W: Write>(out: &mut W, number: u64, row: &[u8]) -> Result<()>
    requires { length row.now ≡ record_length }
{
    for k in 0..PLACES {
        write!(out, "{} ", tally::row_number(number, row, k))?;
    }
    writeln!(out, "{}", tally::row_number(number, row, PLACES))
}

fn print_row(rt: &impl Print, number: u64, row: &[u8]) -> Result<()>
    requires { length row.now ≡ record_length }
{
    print_line(rt, |out| put_row(out, number, row))
}

// The next trace: its 16 bytes of sizes, and behind them as many as a trace of these sizes has, none where they say too many orders. Returns how
// many bytes there were, 0 at the end of input.
fn read_trace<R: Read>(input: &mut R, buffer: &mut [u8; ROOM]) -> Result<usize>
    ensures { IfOk result (λ n. n ≤ 32784) }
{
    let n = read_full(input, &mut buffer[..16])?;
    if n < 16 {
        return Ok(n);
    }
    let end = 16 + tally::rest_of(buffer);
    let m = read_full(input, &mut buffer[16..end])?;
    Ok(16 + m)
}

// Prints the rows of the traces, each read and counted in the place of the one before. Returns their sum.
fn print_rows<R: Read>(rt: &impl Print, input: &mut R) -> Result<[u8; RECORD_BYTES]> {
    let mut buffer = [0u8; ROOM];
    let mut row = [0u8; RECORD_BYTES];
    let mut sum = [0u8; RECORD_BYTES];
    for k in 0..MOST_TRACES {
        let n = read_trace(input, &mut buffer)?;
        if n == 0 {
            break;
        }
        if let Err(r) = tally::tally_trace(&buffer[..n], &mut row) {
            print_line(rt, |out| writeln!(out, "refused {}", u64::from(r)))?;
            break;
        }
        print_row(rt, k + 1, &row)?;
        tally::add_row(&mut sum, &row);
    }
    Ok(sum)
}

fn main(rt: HostRuntime) -> Result<()> {
    let sum = print_rows(&rt, &mut rt.stdin())?;
    print_row(&rt, 0, &sum)
}
