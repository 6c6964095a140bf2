// What is said where a call on a file failed.
use std::io;
use std::io::{Eprint, Error, ErrorKind, Print};
use streams::say;

// The system's numbers of those errors that have words here and no kind of their own.
const EPERM: i32 = 1;

const EIO: i32 = 5;

const EACCES: i32 = 13;

// An error whose kind has no words here, by its number.
fn say_number<R: Print + Eprint>(rt: &R, error: Error) -> io::Result<()> {
    match error.raw_os_error().unwrap_or(0) {
        EACCES => say(rt, b"permission denied\n"),
        EPERM => say(rt, b"not permitted\n"),
        EIO => say(rt, b"input or output error\n"),
        ..0 => say(rt, b"unknown error\n"),
        number => {
            say(rt, b"error number ")?;
            rt.print(number)?;
            say(rt, b"\n")
        }
    }
}

// The ground of a failed call, to the end of the line.
fn say_ground<R: Print + Eprint>(rt: &R, error: Error) -> io::Result<()> {
    match error.kind() {
        ErrorKind::NotFound => say(rt, b"no such file or folder\n"),
        ErrorKind::ReadOnlyFilesystem => say(rt, b"the file system is read-only\n"),
        ErrorKind::StorageFull => say(rt, b"no space is left on the disk\n"),
        ErrorKind::InvalidFilename => say(rt, b"the name is too long\n"),
        ErrorKind::NotADirectory => say(rt, b"a part of the path is no folder\n"),
        ErrorKind::IsADirectory => say(rt, b"it is a folder\n"),
        ErrorKind::FilesystemLoop => say(rt, b"too many links\n"),
        _ => say_number(rt, error),
    }
}

// A line on a call that failed: what follows from it, the name, what could not be done with it, and the ground.
fn say_failed<R: Print + Eprint>(
    rt: &R,
    so: &[u8],
    name: &[u8],
    what: &[u8],
    error: Error,
) -> io::Result<()> {
    say(rt, so)?;
    say(rt, name)?;
    say(rt, what)?;
    say_ground(rt, error)
}

pub fn say_unread<R: Print + Eprint>(rt: &R, path: &[u8], error: Error) -> io::Result<()> {
    say_failed(rt, b"error ", path, b" cannot be read: ", error)
}

// Nothing was changed, since this could not be done with a file of this name.
pub fn say_unchanged<R: Print + Eprint>(
    rt: &R,
    name: &[u8],
    what: &[u8],
    error: Error,
) -> io::Result<()> {
    say_failed(rt, b"error nothing was changed, since ", name, what, error)
}

// The new bytes are in the file and may be lost with the power: `granted` would say too much, and `nothing was changed` too little.
pub fn say_unsure<R: Print + Eprint>(rt: &R, path: &[u8], error: Error) -> io::Result<()> {
    say_failed(
        rt,
        b"error the change is in ",
        path,
        b" but is not known to be on disk (list shows what the file holds), since its folder cannot be synced: ",
        error,
    )
}

// The file beside is there, and stayed.
pub fn say_busy<R: Print + Eprint>(rt: &R, beside: &[u8]) -> io::Result<()> {
    say(rt, b"error nothing was changed, since ")?;
    say(rt, beside)?;
    say(
        rt,
        b" is there: another session is writing, or one was stopped while it wrote. If no session is at work, remove ",
    )?;
    say(rt, beside)?;
    say(rt, b" and type the command again\n")
}
