// Numbers of 16 bits in a row of bytes, low byte first.
ghost use Rattle.std.specs.Prelude.{◌≡◌, ◌+◌, ◌<◌, length};
ghost use Rattle.ring.specs.Buffers.{written};
ghost use Rattle.stored.specs.Blocks.{word, word_at};

// Writes a number from a position on.
pub fn put_word(bytes: &mut [u8], at: usize, x: u16)
    requires { at + 1 < length bytes.old }
    ensures { bytes.new ≡ written bytes.old at (word x) }
{
    bytes[at..at + 2].copy_from_slice(&x.to_le_bytes());
}

// Reads a number.
pub fn word_at(bytes: &[u8], at: usize) -> u16
    requires { at + 1 < length bytes.now }
    ensures { result ≡ word_at bytes.now at }
{
    u16::from_le_bytes([bytes[at], bytes[at + 1]])
}
