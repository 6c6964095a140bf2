// The book at the desk: commands from standard input, answers to standard output, and the book in the file that the argument names. Nothing
// of the book stays in memory between two lines: each line acts on the file as it is at that moment.
#![tactic(auto)]

mod changes;
mod desks;
mod failures;
mod lines;
mod pauses;
mod serving;

ghost use Rattle.std.specs.Prelude.{length, ◌≤◌};

use desks::Desk;
use std::env::{Env, FillError};
use std::io;
use std::rt::Runtime;
use streams::{is_given, say};

// Answers the lines over the file and over the name beside it, `.new` behind. Not so if the file is a link: a change would put a file in its
// place, and two names of one book would not keep each other out.
fn run<R: Runtime>(rt: &R, path: &[u8]) -> io::Result<()>
    requires { length path.now ≤ 4096 }
{
    let mut name = [0u8; 4100];
    let size = path.len();
    name[..size].copy_from_slice(path);
    name[size..size + 4].copy_from_slice(b".new");
    let desk = Desk {
        rt,
        path,
        beside: &name[..size + 4],
    };
    if desk.is_link() {
        return say(
            rt,
            b"error the file is a link: name the file that it leads to\n",
        );
    }
    desk.talk()
}

// Answers by the arguments.
fn start<R: Runtime>(rt: &R) -> io::Result<()> {
    let mut path = [0u8; 4096];
    let named = rt.arg(1, &mut path);
    if is_given(rt, 2) {
        return say(rt, b"usage: ringbook FILE\n");
    }
    match named {
        Ok(0) | Err(FillError::NotPresent) => say(rt, b"usage: ringbook FILE\n"),
        Err(FillError::TooLong) => say(rt, b"error the name of the file is too long\n"),
        Ok(length) => run(rt, &path[..length]),
    }
}

fn main(rt: HostRuntime) {
    // That an answer could not be said is told on standard error already.
    let _ = start(&rt);
}
