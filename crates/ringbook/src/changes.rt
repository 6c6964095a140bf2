// A change: the new bytes take the place of the file's, on disk, before the answer is said.
//
// The file beside, which only one session can make, is the lock: who made it is alone with the book until it takes the place of the file or
// is removed. Until the rename nothing is changed, and the file beside is removed on every way out; from then on the name may be another
// session's, and is left alone.
use super::desks::{Desk, close};
use super::failures::{say_busy, say_unchanged, say_unsure};
use super::pauses::pause;
use book_text::obeying::Obeyed;
use std::env::Env;
use std::fs::{Files, OpenFile};
use std::io;
use std::io::{Error, ErrorKind, Write};
use std::rt::Runtime;
use streams::say;

// How far the new bytes came that are not known to be on disk, and what failed: nowhere; not into the place of the old ones; or into it.
#[derive(Clone, Copy)]
enum StoreError {
    Unwritten(Error),
    Unplaced(Error),
    InPlace(Error),
}

// Writes the bytes to the file beside and brings them to disk.
fn fill<R: Files + Env>(rt: &R, mut file: R::File, bytes: &[u8]) -> io::Result<()> {
    file.write_all(bytes)?;
    file.sync_all()?;
    close(rt, file)
}

impl<R: Runtime> Desk<'_, R> {
    // Makes the file beside. Where it is there already, it looks again for about two seconds, and gives none if it stays. It waits before
    // each try, the first one too, so that a session with many changes to make lets the others in between.
    fn take(&self) -> io::Result<Option<R::File>> {
        for _ in 0..1800 {
            pause(self.rt);
            match self.make_beside() {
                Ok(file) => return Ok(Some(file)),
                Err(error) if error.kind() == ErrorKind::AlreadyExists => {}
                Err(error) => return Err(error),
            }
        }
        Ok(None)
    }

    // Closes the file beside and removes it: nothing is changed.
    fn give_back(&self, file: R::File) {
        drop(file);
        let _ = self.remove_beside();
    }

    // Puts the file beside in the place of the file, and brings that to disk. The folder is opened first: that it cannot be is found out
    // while nothing is changed.
    fn place(&self) -> Result<(), StoreError> {
        let folder = self.open_folder().map_err(StoreError::Unplaced)?;
        self.replace().map_err(StoreError::Unplaced)?;
        folder.sync_all().map_err(StoreError::InPlace)
    }

    // Stores the bytes in the file.
    fn store(&self, file: R::File, bytes: &[u8]) -> Result<(), StoreError> {
        fill(self.rt, file, bytes).map_err(StoreError::Unwritten)?;
        self.place()
    }

    // Stores the bytes, and only then says the reply.
    fn store_and_say(&self, file: R::File, bytes: &[u8], reply: &[u8]) -> io::Result<()> {
        match self.store(file, bytes) {
            Ok(()) => say(self.rt, reply),
            Err(StoreError::InPlace(error)) => say_unsure(self.rt, self.path, error),
            Err(StoreError::Unwritten(error)) => {
                let _ = self.remove_beside();
                say_unchanged(self.rt, self.beside, b" cannot be written: ", error)
            }
            Err(StoreError::Unplaced(error)) => {
                let _ = self.remove_beside();
                say_unchanged(self.rt, self.path, b" cannot be replaced: ", error)
            }
        }
    }

    // Obeys the line alone with the book.
    fn change_alone(&self, file: R::File, line: &[u8]) -> io::Result<()> {
        let mut reply = [0u8; 16384];
        let mut form = [0u8; 7168];
        let heard = self.hear(line, &mut reply, &mut form);
        if let Ok(
            Obeyed {
                reply: length,
                form: Some(size),
            },
        ) = heard
        {
            return self.store_and_say(file, &form[..size], &reply[..length]);
        }
        self.give_back(file);
        match heard {
            Ok(obeyed) => say(self.rt, &reply[..obeyed.reply]),
            Err(error) => say_unchanged(self.rt, self.path, b" cannot be read: ", error),
        }
    }

    // Obeys a line that may change the book, and says the answer.
    pub fn change(&self, line: &[u8]) -> io::Result<()> {
        match self.take() {
            Ok(Some(file)) => self.change_alone(file, line),
            Ok(None) => say_busy(self.rt, self.beside),
            Err(error) => say_unchanged(self.rt, self.beside, b" cannot be made: ", error),
        }
    }
}
