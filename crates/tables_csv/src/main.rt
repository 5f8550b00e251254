// Prints the published tables comma separated, for a program to read: what it prints is kept in the file stdout. The first line names the
// columns; a cell is empty where a table does not have it.
#![tactic(auto)]

use listing::Form;
use std::io;

fn main(rt: HostRuntime) -> io::Result<()> {
    listing::print_tables(&rt, Form::Comma)
}
