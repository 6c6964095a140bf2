// The revision of a book.
ghost use Rattle.std.specs.Prelude.{◌≡◌};
ghost use Rattle.book.specs.Revisions.{revision};

use super::books::Book;

impl Book {
    // The revision: it rises with every accepted grant and removal. It is twice the grants less the live count; 0 for more live circuits
    // than that, which no valid book has.
    pub fn revision(&self) -> u32
        ensures { result ≡ revision self.now }
    {
        let twice = 2 * u32::from(self.grants);
        twice.saturating_sub(u32::from(self.live_count()))
    }
}
