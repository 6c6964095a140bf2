// What the offered operations answer, as lines of text.
ghost use Rattle.std.specs.Prelude.{◌≤◌};
ghost use Rattle.ring.specs.Requests.{requests_of, ValidRequests};

use book::{Book, Holder, Line};
use checker::check;
use matching::maxima::start;
use neighbours::{Graph, prefixes};
use planner::{Part, Summary, plan};
use ring::requests::call_answer;
use ring::{Refusal, Ring};
use std::fmt::Display;
use std::io;
use std::io::Print;

fn write_refusal<R: Print>(rt: &R, refusal: Refusal) -> io::Result<()> {
    println!(rt; "refused {}", refusal.number())
}

// Line 2 of the planning program.
fn write_summary<R: Print>(rt: &R, summary: Summary) -> io::Result<()> {
    let used = match summary.used {
        Part::Chain => "chain",
        Part::Pair => "pair",
    };
    println!(rt;
        "chain {} match {} pair {} used {used} ceiling {}",
        summary.chain, summary.matched, summary.paired, summary.ceiling
    )
}

// The numbers of a table, in one line.
fn write_table<R: Print>(rt: &R, table: &[u16]) -> io::Result<()> {
    print!(rt; "table")?;
    for number in table {
        print!(rt; " {number}")?;
    }
    println!(rt)
}

pub fn show_plan<R: Print>(
    rt: &R,
    n: u16,
    w: u16,
    ends: &[u16],
    table: &mut [u16],
) -> io::Result<()> {
    print!(rt; "plan {n} {w} {}: ", ends.len() / 2)?;
    match plan(n, w, ends, table) {
        Ok(summary) => {
            write_summary(rt, summary)?;
            write_table(rt, table)
        }
        Err(refusal) => write_refusal(rt, refusal),
    }
}

// How many pairs the matching has that the searches start from.
fn start_size(ring: Ring, ends: &[u16]) -> usize
    requires { (ring.nodes ≤ 256) × ValidRequests ring.nodes (requests_of ends.now) }
{
    let mut sets = [[0u64; 8]; 257];
    prefixes(ends, &mut sets);
    start(&Graph::new(ends, &sets)).size
}

pub fn show_start<R: Print>(rt: &R, n: u16, w: u16, ends: &[u16]) -> io::Result<()> {
    match call_answer(n, w, ends, ends.len() / 2) {
        Ok(ring) => {
            println!(rt;
                "start {n} {w} {}: {}",
                ends.len() / 2,
                start_size(ring, ends)
            )
        }
        Err(refusal) => write_refusal(rt, refusal),
    }
}

pub fn show_check<R: Print>(rt: &R, n: u16, w: u16, ends: &[u16], table: &[u16]) -> io::Result<()> {
    print!(rt; "check {n} {w} {}: ", ends.len() / 2)?;
    match check(n, w, ends, table) {
        Ok(count) => println!(rt; "passed {count}"),
        Err(refusal) => write_refusal(rt, refusal),
    }
}

// What a call gives, or its refusal.
fn write_answer<R: Print, D: Display + Drop>(rt: &R, answer: Result<D, Refusal>) -> io::Result<()> {
    match answer {
        Ok(given) => println!(rt; "{given}"),
        Err(refusal) => write_refusal(rt, refusal),
    }
}

pub fn show_open<R: Print>(rt: &R, n: u16, w: u16) -> io::Result<()> {
    print!(rt; "open {n} {w}: ")?;
    write_answer(rt, Book::open(n, w).map(|_| "opened"))
}

// A grant in colour 0, the desk's.
pub fn show_grant<R: Print>(rt: &R, book: &mut Book, x: u16, y: u16, way: u16) -> io::Result<()> {
    let line = Line {
        x,
        y,
        way,
        colour: 0,
        crew: 0,
    };
    print!(rt; "grant: ")?;
    write_answer(rt, book.grant(line))
}

pub fn show_removal<R: Print>(rt: &R, book: &mut Book, serial: u16) -> io::Result<()> {
    print!(rt; "remove: ")?;
    write_answer(rt, book.remove(serial).map(|_| "removed"))
}

pub fn show_confirmation<R: Print>(rt: &R, book: &mut Book, serial: u16) -> io::Result<()> {
    print!(rt; "confirm: ")?;
    write_answer(rt, book.confirm(serial).map(|_| "confirmed"))
}

// The holder of colour 0 on a link, as the desk reads it, which always learns the serial.
pub fn show_holder<R: Print>(rt: &R, book: &Book, link: u16) -> io::Result<()> {
    print!(rt; "link {link}: ")?;
    match book.holder(link, 0, 0) {
        Ok(Holder::Free) => println!(rt; "free"),
        Ok(Holder::Held) => println!(rt; "held"),
        Ok(Holder::HeldBy(serial)) => println!(rt; "{serial}"),
        Err(refusal) => write_refusal(rt, refusal),
    }
}
