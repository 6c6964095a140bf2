// Spaces as people type them: several count as one, and those at the ends of a line as none.
ghost use Rattle.std.specs.Prelude.{◌≡◌, ◌≤◌, ◌<◌, length, take};
ghost use Rattle.book_lines.specs.Lines.{squeezed};
ghost use Rattle.book_lines.specs.Internal.Squeezing.{used, Added};

// How many bytes are in the text, and whether spaces came since the last word.
#[derive(Clone, Copy)]
pub struct Squeezing {
    pub size: usize,
    pub gap: bool,
}

impl Squeezing {
    // Puts one byte of the line into the text; of spaces it only notes that they came.
    fn add(self, text: &mut [u8], byte: u8) -> Squeezing
        requires { used self < length text.old }
        ensures { Added self byte text.old text.new result }
    {
        let size = self.size;
        if byte == b' ' {
            return Squeezing {
                size,
                gap: 0 < size,
            };
        }
        if self.gap && byte != b'\n' {
            text[size] = b' ';
            text[size + 1] = byte;
            return Squeezing {
                size: size + 2,
                gap: false,
            };
        }
        text[size] = byte;
        Squeezing {
            size: size + 1,
            gap: false,
        }
    }
}

// Puts the line into the text, its spaces squeezed, and gives the length.
#[tactic(auto, unfolding(crate::specs::Lines::squeezed))]
pub fn squeeze(line: &[u8], text: &mut [u8]) -> usize
    requires { length line.now ≤ length text.old }
    ensures within { result ≤ length text.new }
    ensures same { take result text.new ≡ squeezed line.now }
{
    let mut so = Squeezing {
        size: 0,
        gap: false,
    };
    for &byte in line {
        so = so.add(text, byte);
    }
    so.size
}
