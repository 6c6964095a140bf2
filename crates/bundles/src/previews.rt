// Trying grants before making them.
ghost use Rattle.std.specs.Prelude.{◌≡◌, ◌≤◌, length};
ghost use Rattle.bundles.specs.Previews.{size_verdict, serials_of, PreviewPromise};

use super::bundles::Bundle;
use book::Book;
use ring::Refusal;
use ring::refusals::refuse_if;

// The line that would be turned down, counted from 0, with its refusal, if there is one; and the serials that the lines before it would
// get: so many, and zeros behind them.
#[derive(Clone, Copy)]
pub struct Previewed {
    pub stopped: Option<(u16, Refusal)>,
    pub count: u16,
    pub serials: [u16; 16],
}

impl Previewed {
    // The serials: of any value of the struct, never more than there are entries.
    pub fn serials(&self) -> &[u16]
        ensures serials { result.now ≡ serials_of self.now }
        ensures few { length result.now ≤ 16 }
    {
        &self.serials[..usize::from(self.count).min(16)]
    }
}

// 22, for no line or more than there is room for.
fn size_verdict(count: usize) -> Result<(), Refusal>
    ensures { result ≡ size_verdict count }
{
    refuse_if(count == 0 || 16 < count, Refusal::LineCount)
}

// The serials that the lines would get, granted one after another on a copy of the book, up to the first that would be turned down.
pub fn preview(book: &Book, bundle: &Bundle) -> Result<Previewed, Refusal>
    ensures { PreviewPromise book.now bundle.now.count bundle.now.lines result }
{
    size_verdict(bundle.count)?;
    let mut copy = *book;
    let mut serials = [0u16; 16];
    for i in 0..bundle.count {
        match copy.grant(bundle.lines[i]) {
            Ok(serial) => serials[i] = serial,
            Err(refusal) => {
                let number = i as u16;
                return Ok(Previewed {
                    stopped: Some((number, refusal)),
                    count: number,
                    serials,
                });
            }
        }
    }
    Ok(Previewed {
        stopped: None,
        count: bundle.count as u16,
        serials,
    })
}
