// Zeros in a lent table.
#![tactic(auto)]

ghost use Rattle.std.specs.Prelude.{◌≡◌, length, replicate};

// The library's `fill` stores the last byte by itself, with which `moesi_fresh` takes 2 to 6 % longer.
pub fn clear_bytes(table: &mut [u8])
    ensures { table.new ≡ replicate (length table.old) 0 }
{
    for b in table.iter_mut() {
        *b = 0;
    }
}
