// The pairs of the pair part, written into a table of fate numbers.
ghost use Rattle.std.specs.Prelude.{◌≡◌, ◌||◌, ◌≤◌, length};
ghost use Rattle.ring.specs.Requests.{requests_of};
ghost use Rattle.ring.specs.Chords.{inside};
ghost use Rattle.ring.specs.Routing.{first_way};
ghost use Rattle.planner.specs.Internal.Writing.{other_way, Within, PairFits, with_pair, MateFits, colour_after, table_after, Writable};
ghost use Rattle.planner.specs.Internal.Writing.{pair_table};

use ring::requests::request_at;
use ring::tables::clear;
use ring::ways::{lies_inside, seam_if, shorter_way, ways_share};
use ring::{Fate, Request, Ring, Way};

// A ring and a list of requests on it: a call that is not turned down.
#[derive(Clone, Copy)]
pub struct Call<'a> {
    pub ring: Ring,
    pub ends: &'a [u16],
    ghost within: { Within ring.nodes ring.colours ends.now },
}

// Whether an end of s lies strictly between the ends of r.
fn end_inside(r: Request, s: Request) -> bool
    ensures { result ≡ (inside r s.a || inside r s.b) }
{
    lies_inside(r, s.a) || lies_inside(r, s.b)
}

// The first of a pair of twins takes the way with fewer links. The first of another pair goes plain if no end of the other lies strictly
// between its ends, else by the seam.
fn first_way(n: u16, r: Request, s: Request) -> Way
    requires { (r.a ≤ r.b) × (r.b ≤ n) }
    ensures { result ≡ first_way n r s }
{
    if r == s {
        return shorter_way(n, r);
    }
    seam_if(end_inside(r, s))
}

// The other takes its one way that is disjoint from that.
fn other_way(first: Way, r: Request, s: Request) -> Way
    ensures { result ≡ other_way first r s }
{
    seam_if(ways_share(first, r, Way::Plain, s))
}

impl Call<'_> {
    // Requests i and j get the colour as a pair.
    fn put_pair(&self, i: usize, j: usize, colour: u16, table: &mut [u16])
        requires { PairFits (length (requests_of self.now.ends.now)) i j colour table.old }
        ensures { table.new ≡ with_pair self.now.ring.nodes (requests_of self.now.ends.now) i j colour table.old }
    {
        let r = request_at(self.ends, i);
        let s = request_at(self.ends, j);
        let first = first_way(self.ring.nodes, r, s);
        let second = other_way(first, r, s);
        table[i] = Fate::Served(first, colour).number();
        table[j] = Fate::Served(second, colour).number();
    }

    // Request i with its mate j: a pair, if i is the lower one and there is a colour left. The next colour is given back.
    fn take_pair(&self, i: usize, j: usize, colour: u16, table: &mut [u16]) -> u16
        requires { MateFits (length (requests_of self.now.ends.now)) i j table.old }
        ensures { (result ≡ colour_after self.now.ring.colours i j colour)
            × (table.new
            ≡ table_after self.now.ring.nodes self.now.ring.colours (requests_of self.now.ends.now) i j colour table.old) }
    {
        if j <= i || self.ring.colours <= colour {
            return colour;
        }
        self.put_pair(i, j, colour, table);
        colour + 1
    }

    // The pairs of the matching that the mates are: their fate numbers in the first m entries, with every other request blocked.
    pub fn write_pairs(&self, mates: &[u16; 512], table: &mut [u16])
        requires { Writable (requests_of self.now.ends.now) mates.now table.old }
        ensures { table.new
            ≡ pair_table self.now.ring.nodes self.now.ring.colours (requests_of self.now.ends.now) mates.now table.old }
    {
        let m = self.ends.len() / 2;
        clear(table, m);
        let mut colour: u16 = 0;
        for (i, mate) in mates[..m].iter().enumerate() {
            colour = self.take_pair(i, usize::from(*mate), colour, table);
        }
    }
}
