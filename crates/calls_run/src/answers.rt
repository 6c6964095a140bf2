// What a call answers, as a line of decimal numbers: 0 and the values, or the refusal's number.
use book::Book;
use ring::Refusal;
use std::io;
use std::io::Print;

// The line of a call whose success gives so many values.
pub fn write_answer<R: Print, const N: usize>(
    rt: &R,
    answer: Result<[u16; N], Refusal>,
) -> io::Result<()> {
    match answer {
        Ok(values) => {
            print!(rt; "0")?;
            for value in values {
                print!(rt; " {value}")?;
            }
            println!(rt)
        }
        Err(refusal) => println!(rt; "{}", refusal.number()),
    }
}

// The last line: how many orders are live, and how many were ever granted.
pub fn write_totals<R: Print>(rt: &R, book: &Book) -> io::Result<()> {
    println!(rt; "live {} grants {}", book.live_count(), book.grants)
}
