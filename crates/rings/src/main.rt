// One tool for the desk: `rings SUBCOMMAND [FILE]`. Each subcommand is a proved function on bytes; this reads its input and writes its
// output.
#![tactic(auto)]

ghost use Rattle.std.specs.Prelude.{◌≡◌};
ghost use Rattle.rings.specs.Conversions.{conversion_answer, after_conversion};

use book_replies::replies::put_refused;
use ring::Refusal;
use std::env::{Env, FillError};
use std::fs::Files;
use std::io::{Cursor, Eprint, Error, Input, Print, Read, Write};
use std::{io, str};
use stored::Form;
use stored::conversions::{convert, convert_back};
use streams::{answer, file_name, is_given, open_read, read_to_end};
use texts::writing::Writer;

// The system's number of the error for a name that is too long.
const ENAMETOOLONG: i32 = 36;

// A line for each subcommand with what it reads, and examples.
fn usage<R: Print + Eprint>(rt: &R) {
    answer(
        rt,
        b"usage: rings SUBCOMMAND [FILE]   (check reads standard input where no FILE is named)\n\
charges FILE  what each live order of the book in FILE pays; standard input has a line of three rates, then a line for each link's length\n\
check [FILE]  reads a list as plan does, then a fate number for each request: how many are served, or the refusal\n\
convert       turns a stored book of the old form into the new form, from standard input to standard output\n\
convert back  turns one of the new form into the old form, from standard input to standard output\n\
help          prints this\n\
example: rings check samples/t10.txt\n\
example: rings charges desk.book <samples/tariff.txt\n\
example: rings convert <old.book >new.book\n",
    );
}

// The check of what can be read. An error is one of the input's, here and below.
fn check<R: Print + Eprint, I: Read>(rt: &R, input: &mut I) -> io::Result<()> {
    // One byte more than a text may have: a longer input shows by it.
    let mut text = [0u8; 16385];
    let length = read_to_end(input, &mut text)?;
    let mut out = [0u8; 32];
    let size = check_text::answer(&text[..length], &mut out);
    answer(rt, &out[..size]);
    Ok(())
}

// Says a refusal on standard error.
fn say_refused<R: Eprint>(rt: &R, refusal: Refusal) {
    let mut line = [0u8; 174];
    let mut writer = Writer::new(&mut line);
    put_refused(&mut writer, refusal);
    let size = writer.len();
    if let Ok(words) = str::from_utf8(&line[..size]) {
        let _ = rt.eprint(words);
    }
}

// Puts the stored book into a buffer, in the form that it is converted to: its length, or a refusal.
fn put_converted(bytes: &[u8], form: Form, out: &mut [u8]) -> Result<u16, Refusal>
    ensures answer { result ≡ conversion_answer form bytes.now out.old }
    ensures buffer { out.new ≡ after_conversion form bytes.now out.old }
{
    match form {
        Form::Old => convert_back(bytes, out),
        Form::New => convert(bytes, out),
    }
}

// The stored book that can be read goes to standard output in that form, or its refusal to standard error.
#[tactic(auto, using(crate::proofs::ConversionLaws::conversion_fits))]
fn convert_input<R: Print + Eprint + Input>(rt: &R, form: Form) -> io::Result<()> {
    // One byte more than a stored book may have: a longer input shows by it.
    let mut bytes = [0u8; 7169];
    let mut input = rt.reader();
    let length = read_to_end(&mut input, &mut bytes)?;
    let mut out = [0u8; 7168];
    match put_converted(&bytes[..length], form, &mut out) {
        Ok(size) => answer(rt, &out[..usize::from(size)]),
        Err(refusal) => say_refused(rt, refusal),
    }
    Ok(())
}

// `convert`, alone or with `back` behind it.
fn convert_as_told<R: Print + Eprint + Input + Env>(rt: &R) -> io::Result<()> {
    let mut word = [0u8; 16];
    match rt.arg(2, &mut word).map(|length| &word[..length]) {
        Err(FillError::NotPresent) => convert_input(rt, Form::New),
        Ok(b"back") => convert_input(rt, Form::Old),
        _ => {
            usage(rt);
            Ok(())
        }
    }
}

// The charges by the book in a file and by the text on standard input.
fn charges<R: Print + Eprint + Input, F: Read>(rt: &R, file: &mut F) -> io::Result<()> {
    // One byte more than a stored book or a text may have: a longer input shows by it.
    let mut bytes = [0u8; 7169];
    let mut text = [0u8; 8193];
    let size = read_to_end(file, &mut bytes)?;
    let mut input = rt.reader();
    let length = read_to_end(&mut input, &mut text)?;
    let mut out = [0u8; 16384];
    let size = charges_text::answer(&bytes[..size], &text[..length], &mut out);
    answer(rt, &out[..size]);
    Ok(())
}

// Says on standard error what failed and the system's words for it, without the number that stands in brackets behind them.
fn fail<R: Eprint>(rt: &R, what: &str, error: Error) {
    let mut text = [0u8; 256];
    let mut out = Cursor::new(&mut text[..]);
    let _ = write!(out, "{error}");
    let said = str::from_utf8(&text).unwrap_or("");
    let words = said
        .split_once(" (os error ")
        .map_or("unknown error", |parts| parts.0);
    let _ = rt.eprint(what);
    let _ = rt.eprint(": ");
    let _ = rt.eprint(words);
    let _ = rt.eprint("\n");
}

// The file that the second argument names; none if it cannot be opened, which is said.
fn named_file<R: Eprint + Env + Files>(rt: &R) -> Option<R::File> {
    let mut path = [0u8; 4096];
    let Ok(length) = rt.arg(2, &mut path) else {
        fail(rt, "rings", Error::from_raw_os_error(ENAMETOOLONG));
        return None;
    };
    let name = &path[..length];
    open_read(rt, name)
        .inspect_err(|error| fail(rt, file_name(name).unwrap_or("rings"), *error))
        .ok()
}

// The check of the file that the second argument names, or of standard input.
fn check_as_told<R: Print + Eprint + Input + Env + Files>(rt: &R) -> io::Result<()> {
    if !is_given(rt, 2) {
        let mut input = rt.reader();
        return check(rt, &mut input);
    }
    let Some(mut file) = named_file(rt) else {
        return Ok(());
    };
    check(rt, &mut file)
}

// The charges by the file that the second argument names.
fn charges_as_told<R: Print + Eprint + Input + Env + Files>(rt: &R) -> io::Result<()> {
    let Some(mut file) = named_file(rt) else {
        return Ok(());
    };
    charges(rt, &mut file)
}

// The subcommand that the first argument names.
fn run<R: Print + Eprint + Input + Env + Files>(rt: &R) -> io::Result<()> {
    let mut word = [0u8; 16];
    let length = rt.arg(1, &mut word).unwrap_or(0);
    if is_given(rt, 3) {
        usage(rt);
        return Ok(());
    }
    match &word[..length] {
        b"check" => check_as_told(rt),
        b"convert" => convert_as_told(rt),
        b"charges" if is_given(rt, 2) => charges_as_told(rt),
        _ => {
            usage(rt);
            Ok(())
        }
    }
}

fn main(rt: HostRuntime) {
    if run(&rt).is_err() {
        let _ = rt.eprint("error the input cannot be read\n");
    }
}
