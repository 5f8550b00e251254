// Standard input and output of the programs: a page that is laid out on the stack and then written at once, and input that is read until a
// buffer is full.
#![tactic(auto)]

ghost use Rattle.std.specs.Prelude.{◌≤◌, IfOk, OnOk, length};
ghost use Rattle.std.specs.Fn.{FnOnceReturnsAtMut};

use std::io::{Cursor, Read, Result};

// Room for one line of a program. None is longer than 231 bytes: those of eleven numbers of twenty digits.
pub const LINE: usize = 256;

// Writes what was laid out of a page, in one call, so that a program has one place to fail at and needs no memory but its stack.
pub fn print_page<const N: usize>(rt: &impl Print, page: &Cursor<[u8; N]>) -> Result<()> {
    let n = page.position().min(N as u64) as usize;
    let bytes = page.get_ref();
    rt.write_all(&bytes[..n])
}

// Lays out one line and then writes it, in one call.
pub fn print_line<F: FnOnce(&mut Cursor<[u8; LINE]>) -> Result<()>>(
    rt: &impl Print,
    put: F,
) -> Result<()>
    requires { F.IsAlwaysCallable put }
    ensures { OnOk result ((blank : _) × (page : _) × FnOnceReturnsAtMut F.FnOnce put blank (Ok tt) page) }
{
    let mut line = Cursor::new([0u8; LINE]);
    put(&mut line)?;
    print_page(rt, &line)
}

// Reads until the buffer is full or the input ends. Returns how many bytes it put in front in the buffer, which `read_exact` doesn't say of an
// input that ends early.
pub fn read_full<R: Read>(input: &mut R, buffer: &mut [u8]) -> Result<usize>
    ensures { IfOk result (λ n. n ≤ length buffer.new) }
{
    let mut done = 0;
    while done < buffer.len() {
        let n = input.read(&mut buffer[done..])?;
        if n == 0 {
            break;
        }
        done += n;
    }
    Ok(done)
}
