// Runs the cases that are not proved, and the inputs on which planners make mistakes, through the offered operations, and writes what
// these answer.
#![tactic(auto)]

mod answers;

use answers::{
    show_check, show_confirmation, show_grant, show_holder, show_open, show_plan, show_removal,
    show_start,
};
use book::Book;
use std::io;
use std::io::Print;

// Ring and number of colours outside the limits.
fn limits<R: Print>(rt: &R, n: u16, w: u16) -> io::Result<()> {
    let ends = [0u16, 1];
    let mut table = [0u16; 1];
    show_plan(rt, n, w, &ends, &mut table)?;
    show_check(rt, n, w, &ends, &table)?;
    show_open(rt, n, w)
}

// One request more than a list may have: that ground comes before the equal ends of request 0.
fn many_requests<R: Print>(rt: &R) -> io::Result<()> {
    let ends = [0u16; 1026];
    let mut table = [0u16; 513];
    show_plan(rt, 8, 1, &ends, &mut table)?;
    show_check(rt, 8, 1, &ends, &table)
}

// The lowest fitting colour would serve 3.
fn latest_end<R: Print>(rt: &R) -> io::Result<()> {
    let ends = [0u16, 2, 1, 3, 3, 5, 2, 6];
    let mut table = [0u16; 4];
    show_plan(rt, 7, 2, &ends, &mut table)?;
    show_check(rt, 7, 2, &ends, &table)
}

// The start pairs requests 0 and 1 and leaves 2 and 3, which cross: no free pair enlarges it, and there are two pairs. The line `start`
// shows that it falls short by itself. An alternating path from 2 to 3 does without blossoms, as the Rust tests show by such a search.
fn enlarged_matching<R: Print>(rt: &R) -> io::Result<()> {
    let ends = [2u16, 1, 2, 1, 2, 0, 3, 1];
    let mut table = [0u16; 4];
    show_start(rt, 4, 2, &ends)?;
    show_plan(rt, 4, 2, &ends, &mut table)?;
    show_check(rt, 4, 2, &ends, &table)
}

// The start finds two of three pairs. The requests are compatible along 0, 1, 3, 5, 2 and 0, a cycle of five, with 4 beside 3; from the
// start on, no search finds the third pair that gives each request only one label, in whatever order: the Rust tests try orders of such
// a search.
fn odd_cycle<R: Print>(rt: &R) -> io::Result<()> {
    let ends = [0u16, 4, 11, 8, 9, 5, 6, 2, 7, 3, 10, 1];
    let mut table = [0u16; 6];
    show_start(rt, 12, 3, &ends)?;
    show_plan(rt, 12, 3, &ends, &mut table)?;
    show_check(rt, 12, 3, &ends, &table)
}

// The chords share end 0 and make a pair.
fn shared_end<R: Print>(rt: &R) -> io::Result<()> {
    let ends = [0u16, 2, 3, 0];
    let mut table = [0u16; 2];
    show_plan(rt, 4, 1, &ends, &mut table)?;
    show_check(rt, 4, 1, &ends, &table)
}

// The seam way of {2,5} uses links 5 to 7 and links 0 and 1. Its removal frees none of them, and they are all free again once its pull
// is confirmed. Then order 1 is confirmed already, order 2 is live, and there was never an order 3.
fn seam_removal<R: Print>(rt: &R) -> io::Result<()> {
    let Ok(mut book) = Book::open(8, 1) else {
        return Ok(());
    };
    show_grant(rt, &mut book, 2, 5, 1)?;
    show_holder(rt, &book, 1)?;
    show_holder(rt, &book, 2)?;
    show_holder(rt, &book, 7)?;
    show_grant(rt, &mut book, 0, 2, 0)?;
    show_removal(rt, &mut book, 1)?;
    show_holder(rt, &book, 1)?;
    show_holder(rt, &book, 7)?;
    show_grant(rt, &mut book, 0, 2, 0)?;
    show_removal(rt, &mut book, 1)?;
    show_confirmation(rt, &mut book, 1)?;
    show_holder(rt, &book, 1)?;
    show_holder(rt, &book, 7)?;
    show_grant(rt, &mut book, 0, 2, 0)?;
    show_holder(rt, &book, 1)?;
    show_confirmation(rt, &mut book, 1)?;
    show_confirmation(rt, &mut book, 2)?;
    show_confirmation(rt, &mut book, 3)
}

fn run<R: Print>(rt: &R) -> io::Result<()> {
    println!(rt; "outside the limits")?;
    limits(rt, 2, 1)?;
    limits(rt, 257, 1)?;
    limits(rt, 8, 0)?;
    limits(rt, 8, 129)?;
    many_requests(rt)?;
    println!(rt; "the colour of the latest end")?;
    latest_end(rt)?;
    println!(rt; "a matching that no free pair enlarges")?;
    enlarged_matching(rt)?;
    odd_cycle(rt)?;
    println!(rt; "chords that share an end")?;
    shared_end(rt)?;
    println!(rt; "the links of a seam way removed and confirmed")?;
    seam_removal(rt)
}

fn main(rt: HostRuntime) {
    // Output that cannot be written ends it.
    let _ = run(&rt);
}
