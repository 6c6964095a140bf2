// Calls on a book: six words each, the kind and five arguments, of which most kinds read only the first ones. Crew 0 is the desk.
use super::answers::write_answer;
use book::{Book, Line};
use outcomes::questions::{circuit_values, holder_values};
use std::io;
use std::io::Print;

// Writes what the call answers.
fn play_call<R: Print>(rt: &R, book: &mut Book, call: [u16; 6]) -> io::Result<()> {
    match call {
        [0, x, y, way, colour, crew] => {
            let line = Line {
                x,
                y,
                way,
                colour,
                crew,
            };
            write_answer(rt, book.grant(line).map(|serial| [serial]))
        }
        [1, serial, ..] => write_answer(rt, book.remove(serial).map(|_| [])),
        [2, serial, ..] => write_answer(rt, book.confirm(serial).map(|_| [])),
        [3, serial, crew, ..] => write_answer(rt, book.show(serial, crew).map(circuit_values)),
        [_, link, colour, crew, ..] => {
            write_answer(rt, book.holder(link, colour, crew).map(holder_values))
        }
    }
}

// Plays all calls that stand whole in the words, low byte first. What is left behind the last of them is not read.
pub fn play_calls<R: Print>(rt: &R, book: &mut Book, words: &[[u8; 2]]) -> io::Result<()> {
    for call in words.as_chunks::<6>().0 {
        play_call(rt, book, call.map(u16::from_le_bytes))?;
    }
    Ok(())
}
