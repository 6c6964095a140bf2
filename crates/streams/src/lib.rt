// The streams of the programs: an input read to its end, a text written whole, a file by its name, and whether there is an argument.
#![tactic(auto)]

ghost use Rattle.std.specs.Prelude.{◌≡◌, ◌↔◌, IfErr, IfOk, IsOk, IsUtf8, Some, length, pos};
ghost use Rattle.std.specs.IoError.{raw_os_error};
ghost use Rattle.streams.specs.Streams.{ReadFits};

use std::env::{Env, FillError};
use std::fs::{File, Files};
use std::io::{Eprint, Error, Print, Read};
use std::{io, str};

// The system's number of the error for bytes that are no text.
const EILSEQ: i32 = 84;

// Reads to the end of the input, or until the buffer is full: how many bytes were read. A read that fails is no end.
pub fn read_to_end<R: Read>(input: &mut R, bytes: &mut [u8]) -> io::Result<usize>
    ensures { ReadFits (length bytes.new) result }
{
    let mut done: usize = 0;
    while done < bytes.len() {
        let count = input.read(&mut bytes[done..])?;
        if count == 0 {
            break;
        }
        done += count;
    }
    Ok(done)
}

// Writes the text to standard output. That this failed is said on standard error too.
pub fn say<R: Print + Eprint>(rt: &R, text: &[u8]) -> io::Result<()> {
    let said = rt.write_all(text);
    if said.is_err() {
        let _ = rt.eprint("error the output cannot be written\n");
    }
    said
}

// Says the whole answer of a program, behind which it ends.
pub fn answer<R: Print + Eprint>(rt: &R, text: &[u8]) {
    let _ = say(rt, text);
}

// A file's name as text. A name that is no UTF-8 names no file.
pub fn file_name(name: &[u8]) -> io::Result<&str>
    ensures named { IsOk result ↔ IsUtf8 name.now }
    ensures text { IfOk result (λ text. text.now ≡ name.now) }
    ensures error { IfErr result (λ error. raw_os_error error ≡ Some (pos 84)) }
{
    str::from_utf8(name).map_err(|_| Error::from_raw_os_error(EILSEQ))
}

// Opens the file for reading.
pub fn open_read<R: Files>(rt: &R, name: &[u8]) -> io::Result<R::File> {
    File::open(rt, file_name(name)?)
}

// Whether the program was given so many arguments.
pub fn is_given<R: Env>(rt: &R, argument: usize) -> bool {
    !matches!(rt.arg(argument, &mut []), Err(FillError::NotPresent))
}
