// The requests of a list as a graph: the set of the requests that are compatible with a request, from sets kept for each node.
#![tactic(auto)]

ghost use Rattle.std.specs.Prelude.{◌≡◌, not, ℕ, ◌<◌, ◌≤◌, eqb, length};
ghost use Rattle.ring.specs.Requests.{requests_of, ValidRequests};
ghost use Rattle.sets.specs.Sets.{bit};
ghost use Rattle.neighbours.specs.Neighbours.{empty, Prefixes, Neighbours};
ghost use Rattle.neighbours.specs.Internal.NodeSets.{NodeSets, Put, Joined, crossed, Uncrossed};

// Puts number i into the set of node x.
fn put(sets: &mut [[u64; 8]; 257], x: usize, i: usize)
    requires { NodeSets sets.old × (x < 257) × (i < 512) }
    ensures { Put sets.old sets.new x i }
{
    sets::add(&mut sets[x], i);
}

// The set of node x + 1 takes in the set of node x: numbers that are in both leave it.
fn join(sets: &mut [[u64; 8]; 257], x: usize, words: usize)
    requires { NodeSets sets.old × (x < 256) × (words ≤ 8) }
    ensures { Joined sets.old sets.new x words }
{
    for k in 0..words {
        sets[x + 1][k] ^= sets[x][k];
    }
}

// For each node the requests that have exactly one end below it: each is put behind both ends, and then each set takes in the one before.
pub fn prefixes(ends: &[u16], sets: &mut [[u64; 8]; 257])
    requires { ValidRequests 256 (requests_of ends.now) × (sets.old ≡ empty) }
    ensures { Prefixes (requests_of ends.now) sets.new }
{
    let m = ends.len() / 2;
    for i in 0..m {
        let request = ring::requests::request_at(ends, i);
        put(sets, request.a as usize + 1, i);
        put(sets, request.b as usize + 1, i);
    }
    for x in 0..256 {
        join(sets, x, m.div_ceil(64));
    }
}

// The requests that do not cross {a, b}, from words of the sets of a, a + 1, b and b + 1: those with an end at a or b, or with none or both
// between.
fn uncrossed_word(a: u64, behind_a: u64, b: u64, behind_b: u64) -> u64
    ensures { (k : ℕ) → k < 64
        → eqb (bit result k) 1 ≡ not (crossed (eqb (bit a k) 1) (eqb (bit behind_a k) 1) (eqb (bit b k) 1) (eqb (bit behind_b k) 1)) }
{
    !((b ^ behind_a) & !((behind_a ^ a) | (behind_b ^ b)))
}

// Writes the requests that do not cross {a, b}, word by word.
fn uncrossed(sets: &[[u64; 8]; 257], a: usize, b: usize, words: usize, around: &mut [u64; 8])
    requires { NodeSets sets.now × (a < 256) × (b < 256) × (words ≤ 8) }
    ensures { Uncrossed sets.now a b words around.new }
{
    for k in 0..words {
        around[k] = uncrossed_word(sets[a][k], sets[a + 1][k], sets[b][k], sets[b + 1][k]);
    }
}

// Requests on at most 256 nodes, their number, and for each node those that have exactly one end below it.
#[derive(Drop)]
pub struct Graph<'a> {
    pub ends: &'a [u16],
    pub count: usize,
    pub sets: &'a [[u64; 8]; 257],
    ghost counted: { count ≡ length (requests_of ends.now) },
    ghost valid: { ValidRequests 256 (requests_of ends.now) },
    ghost prefixes: { Prefixes (requests_of ends.now) sets.now },
}

impl<'a> Graph<'a> {
    // The graph of a list of requests, with the sets that `prefixes` gives for it. They are lent, since they are large.
    pub fn new(ends: &'a [u16], sets: &'a [[u64; 8]; 257]) -> Graph<'a>
        requires { ValidRequests 256 (requests_of ends.now) × Prefixes (requests_of ends.now) sets.now }
        ensures { result.ends.now ≡ ends.now }
    {
        Graph {
            ends,
            count: ends.len() / 2,
            sets,
        }
    }

    // Writes the requests that are compatible with request x.
    pub fn neighbours(&self, x: usize, around: &mut [u64; 8])
        requires { x < self.now.count }
        ensures { Neighbours (requests_of self.now.ends.now) x around.new }
    {
        let request = ring::requests::request_at(self.ends, x);
        uncrossed(
            self.sets,
            request.a as usize,
            request.b as usize,
            self.count.div_ceil(64),
            around,
        );
    }
}
