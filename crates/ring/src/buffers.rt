// Rows of bytes.
ghost use Rattle.std.specs.Prelude.{◌≡◌};
ghost use Rattle.ring.specs.Buffers.{same_bytes};

// Whether two rows of bytes are the same.
pub fn same_bytes(xs: &[u8], ys: &[u8]) -> bool
    ensures { result ≡ same_bytes xs.now ys.now }
{
    xs == ys
}
