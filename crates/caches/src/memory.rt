// Stores in main memory.
ghost use Rattle.std.specs.Prelude.{◌≡◌, ◌*◌, ◌<◌, IfSome, length};
ghost use Rattle.endian.specs.Little.{numbers};
ghost use Rattle.decision.specs.Decision.{store_of};

use decision::Store;
use ports::entry;

// What is stored, if anything, in a memory of so many lines.
pub fn store(memory: &mut [u8], lines: usize, stored: Option<Store>)
    requires memory { length memory.old ≡ 8 * lines }
    requires there { IfSome stored (λ x. x.line < lines) }
    ensures { numbers 8 lines memory.new ≡ store_of stored (numbers 8 lines memory.old) }
{
    if let Some(x) = stored {
        entry::put_word(memory, x.line, x.word);
    }
}
