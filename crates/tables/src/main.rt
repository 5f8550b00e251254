// Prints the published tables as text: what it prints is kept in the file stdout. Columns are separated by blanks, and no entry has a blank in
// it; a line that starts with # explains.
#![tactic(auto)]

use listing::Form;
use std::io;

fn main(rt: HostRuntime) -> io::Result<()> {
    listing::print_tables(&rt, Form::Text)
}
