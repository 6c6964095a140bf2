// Words with numbers behind them.
ghost use Rattle.std.specs.Prelude.{◌+◌, ◌≤◌, length};
ghost use Rattle.texts.specs.Layout.{labelled, way_ending};
ghost use Rattle.texts.specs.Internal.Writing.{Room, Wrote};

use super::writing::Writer;
use ring::Way;

impl<'a> Writer<'a> {
    // A word and a number.
    pub fn labelled(&mut self, word: &[u8], n: u16)
        requires { Room (length word.now + 5) self.old }
        ensures { Wrote self.old (labelled word.now n) self.new }
    {
        self.bytes(word);
        self.number(n);
    }

    // The way and the colour of a request that is served.
    pub fn way(&mut self, way: Way, colour: u16)
        requires { Room 8 self.old }
        ensures { Wrote self.old (way_ending way colour) self.new }
    {
        match way {
            Way::Plain => self.labelled(b" P ", colour),
            Way::Seam => self.labelled(b" S ", colour),
        }
    }
}
