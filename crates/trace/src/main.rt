// Runs a trace from standard input, and prints its sizes, each order's place and five numbers, and the audit of the end state; or the
// refusal of the trace alone. What it prints for the trace in the file stdin is kept in the file stdout.
#![tactic(auto)]

ghost use Rattle.std.specs.Prelude.{◌≤◌, length};

use console::{print_line, read_full};
use model::answer::Answer;
use replay::{MAX_ORDERS, Played};
use std::io::{Result, Write};

// The first line: the four sizes.
fn print_sizes(rt: &impl Print, p: Played) -> Result<()> {
    let s = p.shape;
    print_line(
        rt,
        |out| writeln!(
            out,
            "ports {} sets {} lines {} orders {}",
            s.ports, s.sets, s.lines, p.orders
        ),
    )
}

// The lines of the orders: the place of each, from 1, and the five numbers of its answer.
fn print_answers(rt: &impl Print, answers: &[Answer]) -> Result<()>
    requires { length answers.now ≤ 2048 }
{
    for (k, a) in answers.iter().enumerate() {
        print_line(
            rt,
            |out| writeln!(
                out,
                "{} {} {} {} {} {}",
                k + 1,
                a.refusal,
                a.value,
                a.swapped,
                a.reads,
                a.writes
            ),
        )?;
    }
    Ok(())
}

// The lines of a trace that is not refused; the last one says whether the audit passes.
fn print_played(rt: &impl Print, p: Played, answers: &[Answer; MAX_ORDERS]) -> Result<()>
    requires { p.orders ≤ 2048 }
{
    print_sizes(rt, p)?;
    print_answers(rt, &answers[..p.orders])?;
    let passes = u8::from(p.passes);
    print_line(rt, |out| writeln!(out, "audit {passes}"))
}

// Room for the longest trace, of fixed size and on the stack (no heap is a rule here), and for one byte more: a longer input is then refused by its
// length.
const ROOM: usize = 16 + 16 * MAX_ORDERS + 1;

fn main(rt: HostRuntime) -> Result<()> {
    let mut buffer = [0u8; ROOM];
    let mut answers = [Answer::default(); MAX_ORDERS];
    let n = read_full(&mut rt.stdin(), &mut buffer)?;
    match replay::play_trace(&buffer[..n], &mut answers) {
        Ok(p) => print_played(&rt, p, &answers),
        Err(r) => print_line(&rt, |out| writeln!(out, "refused {}", u64::from(r))),
    }
}
