// A line answered, by what it needs of the file. An error says that the answer could not be said.
use super::desks::Desk;
use super::failures::say_unread;
use book_text::obeying::Need;
use book_text::{need_of_line, obey};
use std::io;
use std::rt::Runtime;
use streams::say;

impl<R: Runtime> Desk<'_, R> {
    // A line that needs no file. Only a line that needs to write changes the book, so there is nothing to store.
    fn tell(&self, line: &[u8]) -> io::Result<()> {
        let mut reply = [0u8; 16384];
        let mut form = [0u8; 7168];
        let obeyed = obey(None, line, &mut reply, &mut form);
        say(self.rt, &reply[..obeyed.reply])
    }

    // A question: the file as it is now answers it, and is left alone.
    fn ask(&self, line: &[u8]) -> io::Result<()> {
        let mut reply = [0u8; 16384];
        let mut form = [0u8; 7168];
        match self.hear(line, &mut reply, &mut form) {
            Ok(obeyed) => say(self.rt, &reply[..obeyed.reply]),
            Err(error) => say_unread(self.rt, self.path, error),
        }
    }

    pub fn serve(&self, line: &[u8]) -> io::Result<()> {
        match need_of_line(line) {
            Need::Nothing => self.tell(line),
            Need::Reading => self.ask(line),
            Need::Writing => self.change(line),
        }
    }
}
