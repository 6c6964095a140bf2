// A search from an exposed vertex: it enlarges the matching, or freezes its tree.
ghost use Rattle.std.specs.Prelude.{◌≡◌, ◌⊎◌, false, ℕ, ◌+◌, ◌<◌, ◌≤◌, length, get_or};
ghost use Rattle.ring.specs.Requests.{requests_of};
ghost use Rattle.matching.specs.declared.labels.VertexLabel.TheVariants.{Free, Even};
ghost use Rattle.matching.specs.Maximum.{is_frozen};
ghost use Rattle.matching.specs.Internal.Search.{Square, Settled};
ghost use Rattle.matching.specs.Internal.Progress.{apart_in, InSearch, Advanced, InScan, Stepped, Begun};

use super::climbs::{Marks, Side};
use super::labels::{VertexLabel, freeze, unlabel};
use super::matchings::Search;
use neighbours::Graph;
use sets::members;

// The parts of a search answer whether it has enlarged the matching; if not, it goes on.
impl Search {
    // The edge from x, which is being scanned, to the even y closes a blossom. Its base is where the walk up from x ends, and that from y
    // as well.
    fn blossom(&mut self, rows: &mut [[u16; 512]], x: usize, y: usize, m: usize)
        requires { InScan self.old rows.old x y m × (get_or self.old.labels y Free ≡ Even) }
        ensures { Stepped self.old rows.old x y m self.new rows.new false }
    {
        let mut marks = Marks {
            sides: [Side::Neither; 512],
            cycle: [0; 8],
            on: [false; 512],
        };
        let b = self.climb_both(rows, &mut marks, x, y);
        let joined = self.rebase(&marks, b, m);
        self.absorb(rows, &marks, &joined, x, y, m);
        self.promote(&marks, m);
    }

    // What the edge from x to y does, which is free or even and of another class.
    fn step(&mut self, rows: &mut [[u16; 512]], x: usize, y: usize, m: usize) -> bool
        requires { InScan self.old rows.old x y m × ((get_or self.old.labels y Free ≡ Free) ⊎ (get_or self.old.labels y Free ≡ Even)) }
        ensures { Stepped self.old rows.old x y m self.new rows.new result }
    {
        match self.labels[y] {
            VertexLabel::Even => {
                self.blossom(rows, x, y, m);
                false
            }
            _ => self.attach(rows, x, y),
        }
    }

    // The tree grows from the vertex at place g of the queue by all its free neighbours, unless one of them is exposed.
    fn extend(&mut self, graph: &Graph, rows: &mut [[u16; 512]], g: usize) -> bool
        requires { ((h : ℕ) × InSearch (requests_of graph.now.ends.now) self.old rows.old h) × (g < self.old.clock) }
        ensures { (h : ℕ) → Advanced (requests_of graph.now.ends.now) self.old rows.old h self.new rows.new result h }
    {
        let x = usize::from(self.queue[g]);
        let mut around = [0; 8];
        graph.neighbours(x, &mut around);
        for y in members(&around, 0, graph.count) {
            if self.labels[y] == VertexLabel::Free && self.attach(rows, x, y) {
                return true;
            }
        }
        false
    }

    // Whether y is free, or even and of another class than x.
    fn is_apart(&self, x: usize, y: usize) -> bool
        requires { (x < 512) × (y < 512) }
        ensures { result ≡ apart_in self.now.labels self.now.bases x y }
    {
        match self.labels[y] {
            VertexLabel::Free => true,
            VertexLabel::Even => self.bases[x] != self.bases[y],
            _ => false,
        }
    }

    // Scans the vertex at place h of the queue.
    fn scan(&mut self, graph: &Graph, rows: &mut [[u16; 512]], h: usize) -> bool
        requires { InSearch (requests_of graph.now.ends.now) self.old rows.old h × (h < self.old.clock) }
        ensures { Advanced (requests_of graph.now.ends.now) self.old rows.old h self.new rows.new result (h + 1) }
    {
        let m = graph.count;
        let x = usize::from(self.queue[h]);
        let mut around = [0; 8];
        graph.neighbours(x, &mut around);
        for y in members(&around, 0, m) {
            if self.is_apart(x, y) && self.step(rows, x, y, m) {
                return true;
            }
        }
        false
    }

    // A search from r begins: r is even and the only one queued, all others that are not frozen are free; the row of r is the
    // matching itself.
    fn begin(&mut self, rows: &mut [[u16; 512]], r: usize, m: usize)
        requires { (r < m) × (m ≤ 512) × (r < length rows.old) }
        ensures { Begun m r self.old rows.old self.new rows.new }
    {
        rows[r] = self.mates;
        unlabel(&mut self.labels, m);
        self.labels[r] = VertexLabel::Even;
        self.bases[r] = r as u16;
        self.queue[0] = r as u16;
        self.clock = 1;
    }

    // The tree of a search grows until it enlarges the matching or all its even vertices are scanned. Every vertex of the queue is extended
    // from before the next one is scanned, so that a blossom is closed only where the tree cannot grow.
    fn explore(&mut self, graph: &Graph, rows: &mut [[u16; 512]]) -> bool
        requires { InSearch (requests_of graph.now.ends.now) self.old rows.old 0 }
        ensures { Advanced (requests_of graph.now.ends.now) self.old rows.old 0 self.new rows.new result self.new.clock }
    {
        let mut g = 0;
        let mut h = 0;
        while h < self.clock {
            if g < self.clock {
                if self.extend(graph, rows, g) {
                    return true;
                }
                g += 1;
            } else {
                if self.scan(graph, rows, h) {
                    return true;
                }
                h += 1;
            }
        }
        false
    }

    // A search from r, which is exposed and not frozen.
    pub fn run(&mut self, graph: &Graph, rows: &mut [[u16; 512]], r: usize)
        requires { Settled (requests_of graph.now.ends.now) self.old r × Square graph.now.count rows.old × (r < graph.now.count)
            × (get_or self.old.mates r 0 ≡ r) × (is_frozen (get_or self.old.labels r Free) ≡ false) }
        ensures { Settled (requests_of graph.now.ends.now) self.new (r + 1) × Square graph.now.count rows.new }
    {
        self.begin(rows, r, graph.count);
        if !self.explore(graph, rows) {
            freeze(&mut self.labels, graph.count);
        }
    }
}
