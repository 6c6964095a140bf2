// Bytes and numbers written into a buffer, one after the other.
ghost use Rattle.std.specs.Prelude.{◌≡◌, [], ◌∷◌, ◌+◌, ◌≤◌, length};
ghost use Rattle.texts.specs.Decimal.{decimal, long_decimal};
ghost use Rattle.texts.specs.Internal.Writing.{Begun, Room, Wrote};

// A buffer that is lent, and how many bytes of it are written.
#[derive(Drop)]
pub struct Writer<'a> {
    out: &'a mut [u8],
    at: usize,
}

impl<'a> Writer<'a> {
    // One that has written nothing yet.
    pub fn new(out: &'a mut [u8]) -> Writer<'a>
        ensures buffer { result.out.ghost_name ≡ out.entry.ghost_name }
        ensures begun { Begun out.old result }
    {
        Writer { out, at: 0 }
    }

    // How many bytes are written.
    pub fn len(&self) -> usize
        ensures { result ≡ self.now.at }
    {
        self.at
    }

    // One byte.
    pub fn byte(&mut self, byte: u8)
        requires { Room 1 self.old }
        ensures { Wrote self.old (byte ∷ []) self.new }
    {
        self.out[self.at] = byte;
        self.at += 1;
    }

    // A string of bytes.
    pub fn bytes(&mut self, bytes: &[u8])
        requires { Room (length bytes.now) self.old }
        ensures { Wrote self.old bytes.now self.new }
    {
        let end = self.at + bytes.len();
        self.out[self.at..end].copy_from_slice(bytes);
        self.at = end;
    }

    // A number of 64 bits, without leading zeros.
    pub fn long(&mut self, n: u64)
        requires { Room (length (long_decimal n)) self.old }
        ensures { Wrote self.old (long_decimal n) self.new }
    {
        if 10 <= n {
            self.long(n / 10);
        }
        self.byte(b'0' + (n % 10) as u8);
    }

    // A number, without leading zeros.
    pub fn number(&mut self, n: u16)
        requires { Room 5 self.old }
        ensures { Wrote self.old (decimal n) self.new }
    {
        self.long(u64::from(n));
    }
}
