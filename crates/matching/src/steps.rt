// The steps of a search that grow the tree or enlarge the matching.
ghost use Rattle.std.specs.Prelude.{◌≡◌, [], ◌<◌, length, get_or, set};
ghost use Rattle.matching.specs.Internal.Steps.{grown_row, grown_arrays, enlarged_arrays, Attachable, Attached};

use super::labels::VertexLabel;
use super::matchings::Search;

// Row c becomes a copy of row x.
pub fn copy_row(rows: &mut [[u16; 512]], x: usize, c: usize)
    requires { (x < length rows.old) × (c < length rows.old) }
    ensures { rows.new ≡ set rows.old c (get_or rows.old x []) }
{
    rows[c] = rows[x];
}

// A row gets x and y paired and c exposed.
pub fn pair_in_row(row: &mut [u16; 512], x: usize, y: usize, c: usize)
    requires { (x < 512) × (y < 512) × (c < 512) }
    ensures { row.new ≡ set (set (set row.old x y) y x) c c }
{
    row[x] = y as u16;
    row[y] = x as u16;
    row[c] = c as u16;
}

// Row c becomes row x with x and y paired and c exposed.
fn grow_row(rows: &mut [[u16; 512]], x: usize, y: usize, c: usize)
    requires { (x < 512) × (y < 512) × (c < 512) × (x < length rows.old) × (c < length rows.old) }
    ensures { rows.new ≡ set rows.old c (grown_row rows.old x y c) }
{
    copy_row(rows, x, c);
    pair_in_row(&mut rows[c], x, y, c);
}

impl Search {
    // The tree grows by y, below x, and its mate c.
    fn grow(&mut self, x: usize, y: usize, c: usize)
        requires { (x < 512) × (y < 512) × (c < 512) × (self.old.clock < 512) }
        ensures { self.new ≡ grown_arrays self.old x y c }
    {
        self.labels[y] = VertexLabel::Odd;
        self.labels[c] = VertexLabel::Even;
        self.bases[c] = c as u16;
        self.parents[y] = x as u16;
        self.queue[self.clock] = c as u16;
        self.clock += 1;
    }

    // The mates become row x with x and y paired.
    fn enlarge(&mut self, rows: &[[u16; 512]], x: usize, y: usize)
        requires { (x < 512) × (y < 512) × (x < length rows.now) }
        ensures { self.new ≡ enlarged_arrays self.old rows.now x y }
    {
        self.mates = rows[x];
        self.mates[x] = y as u16;
        self.mates[y] = x as u16;
    }

    // The edge from the even x to the free y enlarges the matching, and the answer is true, or the tree grows by y and its mate.
    pub fn attach(&mut self, rows: &mut [[u16; 512]], x: usize, y: usize) -> bool
        requires { Attachable self.old rows.old x y }
        ensures { Attached self.old rows.old x y self.new rows.new result }
    {
        let c = usize::from(self.mates[y]);
        if c == y {
            self.enlarge(rows, x, y);
            return true;
        }
        grow_row(rows, x, y, c);
        self.grow(x, y, c);
        false
    }
}
