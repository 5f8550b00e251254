// Little-endian numbers in lent bytes: reading and writing one of at most eight bytes.
#![tactic(auto)]

ghost use Rattle.std.specs.Prelude.{◌≡◌, ◌+◌, ◌<◌, ◌≤◌, ◌^◌, length, drop};
ghost use Rattle.std.proofs.lemmas.List.Edits.{sets};
ghost use Rattle.endian.specs.Little.{number, bytes_of};

// The number of N bytes from at on. (A fold over the bytes becomes loads of a byte or two wherever a caller takes fields out of the number.)
pub fn read<const N: usize>(s: &[u8], at: usize) -> u64
    requires width { N ≤ 8 }
    requires room { at + N ≤ length s.now }
    ensures { (result ≡ number N (drop at s.now)) × (result < 256 ^ N) }
{
    let mut bytes = [0u8; 8];
    bytes[..N].copy_from_slice(&s[at..at + N]);
    u64::from_le_bytes(bytes)
}

// The lowest N bytes of x, stored from at on.
pub fn write<const N: usize>(s: &mut [u8], at: usize, x: u64)
    requires width { N ≤ 8 }
    requires room { at + N ≤ length s.old }
    ensures { s.new ≡ sets s.old at (bytes_of N x) }
{
    s[at..at + N].copy_from_slice(&x.to_le_bytes()[..N]);
}
