// Plays calls on a book in memory, for the tests in Rust. Standard input, of which 65,536 bytes are read at most, is words of 16 bits, low
// byte first: n, w, then six to a call: 0 x y way colour crew for a grant, 1 serial for a removal, 2 serial for a confirmation, 3 serial
// crew to show an order, any other number with link, colour and crew for a holder, and behind these, up to six, words that nothing depends
// on. Standard output is a line for each call, and the totals.
#![tactic(auto)]

mod answers;
mod calls;

use answers::write_totals;
use book::Book;
use calls::play_calls;
use std::io;
use std::io::{Eprint, Print};
use streams::read_to_end;

// The book is opened with the first two words, or with zeros if they are not both there. Where that is refused, the calls act on the
// book of no nodes that stands beside the refusal.
fn play<R: Print>(rt: &R, words: &[[u8; 2]]) -> io::Result<()> {
    let [n, w, calls @ ..] = words else {
        return write_totals(rt, &Book::opened(0, 0));
    };
    let mut book = Book::opened(u16::from_le_bytes(*n), u16::from_le_bytes(*w));
    play_calls(rt, &mut book, calls)?;
    write_totals(rt, &book)
}

fn main(rt: HostRuntime) {
    let mut bytes = [0u8; 65536];
    let mut input = rt.stdin();
    match read_to_end(&mut input, &mut bytes) {
        Ok(length) => {
            let _ = play(&rt, bytes[..length].as_chunks::<2>().0);
        }
        Err(_) => {
            let _ = rt.eprint("error the input cannot be read\n");
        }
    }
}
