// A session at the desk: the system, the file of the book, read whole, the file beside it, and the folder of both.
ghost use Rattle.std.specs.Prelude.{IfOk, IfSome, length, ◌≤◌};

use book_text::obey;
use book_text::obeying::Obeyed;
use std::env::Env;
use std::fs::{Files, OpenOptions};
use std::io::{ErrorKind, Read};
use std::rt::Runtime;
use std::{fs, io};
use std_io::io::last_error;
use streams::{file_name, open_read, read_to_end};

// The system, the name of the book's file, and the name beside it under which its next bytes are written.
#[derive(Clone, Copy)]
pub struct Desk<'a, R> {
    pub rt: &'a R,
    pub path: &'a [u8],
    pub beside: &'a [u8],
}

// The line, obeyed by what can be read.
fn hear_open<F: Read>(
    file: &mut F,
    line: &[u8],
    reply: &mut [u8],
    form: &mut [u8],
) -> io::Result<Obeyed>
    ensures within { IfOk result (λ heard. (heard.reply ≤ length reply.new) × IfSome heard.form (λ size. size ≤ length form.new)) }
{
    // One byte more than a stored form may have: a longer file shows by it.
    let mut bytes = [0u8; 7169];
    let length = read_to_end(file, &mut bytes)?;
    Ok(obey(Some(&bytes[..length]), line, reply, form))
}

impl<R: Runtime> Desk<'_, R> {
    // The line, obeyed by the file, if there is one. One that is there and cannot be opened is not absent.
    pub fn hear(&self, line: &[u8], reply: &mut [u8], form: &mut [u8]) -> io::Result<Obeyed>
        ensures within { IfOk result (λ heard. (heard.reply ≤ length reply.new) × IfSome heard.form (λ size. size ≤ length form.new)) }
    {
        match open_read(self.rt, self.path) {
            Ok(mut file) => hear_open(&mut file, line, reply, form),
            Err(error) if error.kind() == ErrorKind::NotFound => Ok(obey(None, line, reply, form)),
            Err(error) => Err(error),
        }
    }

    // Opens the folder of the file: what stands up to the last `/` names it.
    pub fn open_folder(&self) -> io::Result<R::File> {
        match self.path.iter().rposition(|&byte| byte == b'/') {
            Some(last) => open_read(self.rt, &self.path[..=last]),
            None => open_read(self.rt, b"."),
        }
    }

    // Makes the file beside, which is not there, to be written.
    pub fn make_beside(&self) -> io::Result<R::File> {
        let mut how = OpenOptions::new();
        how.write(true);
        how.create_new(true);
        how.open(self.rt, file_name(self.beside)?)
    }

    // Puts the file beside in the place of the file.
    pub fn replace(&self) -> io::Result<()> {
        fs::rename(self.rt, file_name(self.beside)?, file_name(self.path)?)
    }

    pub fn remove_beside(&self) -> io::Result<()> {
        fs::remove_file(self.rt, file_name(self.beside)?)
    }

    // Whether the file is a link.
    pub fn is_link(&self) -> bool {
        file_name(self.path)
            .and_then(|name| fs::symlink_metadata(self.rt, name))
            .is_ok_and(|metadata| metadata.is_symlink())
    }
}

// Closes the file. No call of a file says whether its close failed, so the errno that it leaves is read. An argument that can be read
// leaves none.
pub fn close<R: Files + Env>(rt: &R, file: R::File) -> io::Result<()> {
    let mut name = [0u8; 4096];
    let _ = rt.arg(1, &mut name);
    drop(file);
    let error = last_error();
    if error.raw_os_error() == Some(0) {
        return Ok(());
    }
    Err(error)
}
