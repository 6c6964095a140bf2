// A walk up the tree from one end of the edge that closes a blossom: it marks the cycle's vertices above this end alone and the bases that
// hang from them, and finds the base of the blossom.
ghost use Rattle.std.specs.Prelude.{◌≡◌, ◌<◌, length, get_or};
ghost use Rattle.matching.specs.Internal.Climbs.{goes_on, Climbable, Climbed, ClimbedBoth};

use super::matchings::Search;
use sets::add;

// The end of the edge above which alone a vertex is; none for a vertex off the cycle.
#[derive(Clone, Copy)]
pub enum Side {
    Neither,
    First,
    Second,
}

// What the walks mark: the side of each vertex that they pass, the set of these, and the bases that they visit.
#[derive(Drop)]
pub struct Marks {
    pub sides: [Side; 512],
    pub cycle: [u64; 8],
    pub on: [bool; 512],
}

impl Search {
    // Whether the base b has a mate that is not above y.
    fn goes_on(&self, rows: &[[u16; 512]], y: usize, b: usize) -> bool
        requires { (y < length rows.now) × (b < 512) × (get_or self.now.mates b 0 < 512) }
        ensures { result ≡ goes_on rows.now self.now y b }
    {
        let o = usize::from(self.mates[b]);
        if o == b {
            return false;
        }
        rows[y][o] == self.mates[o]
    }

    // The base above the odd vertex o.
    fn above(&self, o: usize) -> usize
        requires { (o < 512) × (get_or self.now.parents o 0 < 512) }
        ensures { result ≡ get_or self.now.bases (get_or self.now.parents o 0) 0 }
    {
        let p = usize::from(self.parents[o]);
        usize::from(self.bases[p])
    }

    // The walk up from x against y. The odd vertices that it passes get the side; the bases that it visits are marked in `on`. The base
    // where it ends. `steps` stays below 512.
    fn climb(&self, rows: &[[u16; 512]], marks: &mut Marks, x: usize, y: usize, side: Side) -> usize
        requires { Climbable rows.now self.now x y }
        ensures { Climbed rows.now self.now x y side result marks.old marks.new }
    {
        let mut b = usize::from(self.bases[x]);
        let mut steps: usize = 0;
        while self.goes_on(rows, y, b) {
            let o = usize::from(self.mates[b]);
            marks.sides[o] = side;
            marks.on[b] = true;
            add(&mut marks.cycle, o);
            b = self.above(o);
            steps += 1;
        }
        b
    }

    // The walks from both ends of the edge from x to y; the base of the blossom.
    pub fn climb_both(&self, rows: &[[u16; 512]], marks: &mut Marks, x: usize, y: usize) -> usize
        requires { Climbable rows.now self.now x y
            × Climbable rows.now self.now y x }
        ensures { ClimbedBoth rows.now self.now x y result marks.old marks.new }
    {
        let b = self.climb(rows, marks, x, y, Side::First);
        self.climb(rows, marks, y, x, Side::Second);
        b
    }
}
