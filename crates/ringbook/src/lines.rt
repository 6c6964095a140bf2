// The lines of standard input: each is answered when its line feed has come.
ghost use Rattle.std.specs.Prelude.{◌≤◌};

use super::desks::Desk;
use std::io;
use std::io::Read;
use std::rt::Runtime;
use streams::say;

// The present line, as far as it came. It has room for one byte more than a line may have: a longer one shows by it.
#[derive(Drop)]
struct Line {
    bytes: [u8; 1025],
    length: usize,
    ghost within: { length ≤ 1025 },
}

impl Line {
    fn new() -> Line {
        Line {
            bytes: [0; 1025],
            length: 0,
        }
    }

    // Keeps a byte, if there is room for it.
    fn keep(&mut self, byte: u8) {
        if self.length < 1025 {
            self.bytes[self.length] = byte;
            self.length += 1;
        }
    }

    fn clear(&mut self) {
        self.length = 0;
    }
}

impl<R: Runtime> Desk<'_, R> {
    // Answers the line and begins the next one.
    fn end_line(&self, line: &mut Line) -> io::Result<()> {
        let said = self.serve(&line.bytes[..line.length]);
        line.clear();
        said
    }

    // Takes the bytes that came; a line feed has the line answered.
    fn take_in(&self, line: &mut Line, bytes: &[u8]) -> io::Result<()> {
        for byte in bytes {
            line.keep(*byte);
            if *byte == b'\n' {
                self.end_line(line)?;
            }
        }
        Ok(())
    }

    // Answers the lines to the end of the input: a terminal gives a line when it is entered. Nothing says that an input ends, so the loop
    // counts its turns, up to a number that no run uses up.
    pub fn talk(&self) -> io::Result<()> {
        let mut input = self.rt.reader();
        let mut line = Line::new();
        let mut bytes = [0u8; 4096];
        for _ in 0..u64::MAX {
            let Ok(count) = input.read(&mut bytes) else {
                return say(self.rt, b"error the input cannot be read\n");
            };
            if count == 0 {
                break;
            }
            self.take_in(&mut line, &bytes[..count])?;
        }
        // What stands behind the last line feed.
        if line.length > 0 {
            self.end_line(&mut line)?;
        }
        Ok(())
    }
}
