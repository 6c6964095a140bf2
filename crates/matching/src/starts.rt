// A matching to start from: requests with few compatible ones are matched first, and to one that has few.
ghost use Rattle.std.specs.Prelude.{◌≡◌, ◌+◌, ◌/◌, ◌<◌, ◌≤◌, length, IfSome};
ghost use Rattle.ring.specs.Requests.{requests_of};
ghost use Rattle.matching.specs.Internal.Start.{bits_set, Measured, Identity, Matched, Partner};

use neighbours::Graph;
use sets::members;
use std::array;

// From this size on sets are large: any partner does, so that not all are looked at.
const LARGE: u16 = 128;

// How many numbers the words of a set hold.
fn size(words: &[u64]) -> u16
    requires { length words.now ≤ 8 }
    ensures { (result ≡ bits_set words.now) × (result ≤ 512) }
{
    words.iter().map(|word| word.count_ones() as u16).sum()
}

// The sizes of the sets of all requests, and the largest one.
fn measure(graph: &Graph, sizes: &mut [u16; 512]) -> u16
    ensures { Measured (requests_of graph.now.ends.now) graph.now.count ((graph.now.count + 63) / 64) sizes.new result × (result ≤ 512) }
{
    let words = graph.count.div_ceil(64);
    let mut around = [0; 8];
    let mut largest: u16 = 0;
    for i in 0..graph.count {
        graph.neighbours(i, &mut around);
        let size = size(&around[..words]);
        sizes[i] = size;
        largest = largest.max(size);
    }
    largest
}

// The exposed request with the smallest set among those adjacent to i. One whose set is not above `high` is taken at once, and any if sets
// are large; then it is looked for behind i, since those before i find i at their own turn. Any exposed neighbour is a right partner, so
// which one it is stays open.
fn partner(
    graph: &Graph,
    sizes: &[u16; 512],
    mates: &[u16; 512],
    i: usize,
    high: u16,
) -> Option<usize>
    requires { i < graph.now.count }
    ensures { IfSome result (λ j. Partner (requests_of graph.now.ends.now) mates.now i j) }
{
    let mut around = [0; 8];
    graph.neighbours(i, &mut around);
    let from = if LARGE <= high { i + 1 } else { 0 };
    let mut best = None;
    for j in members(&around, from, graph.count) {
        if j != i && usize::from(mates[j]) == j && best.is_none_or(|b: usize| sizes[j] < sizes[b]) {
            best = Some(j);
            if LARGE <= high || sizes[j] <= high {
                break;
            }
        }
    }
    best
}

// If i is exposed, it is matched to its partner.
fn pair_up(graph: &Graph, sizes: &[u16; 512], mates: &mut [u16; 512], i: usize, high: u16)
    requires { (i < graph.now.count) × Matched (requests_of graph.now.ends.now) mates.old }
    ensures { Matched (requests_of graph.now.ends.now) mates.new }
{
    if usize::from(mates[i]) == i {
        if let Some(j) = partner(graph, sizes, mates, i, high) {
            mates[i] = j as u16;
            mates[j] = i as u16;
        }
    }
}

// Those requests whose sets are above `low` and not above `high`, in the order of their numbers.
fn pair_class(graph: &Graph, sizes: &[u16; 512], mates: &mut [u16; 512], low: u16, high: u16)
    requires { Matched (requests_of graph.now.ends.now) mates.old }
    ensures { Matched (requests_of graph.now.ends.now) mates.new }
{
    for i in 0..graph.count {
        if low < sizes[i] && sizes[i] <= high {
            pair_up(graph, sizes, mates, i, high);
        }
    }
}

// All requests that have another one in their sets, by classes of rising size. The last word of a set also has the numbers from the count
// of requests on.
pub fn greedy(graph: &Graph, mates: &mut [u16; 512])
    requires { Matched (requests_of graph.now.ends.now) mates.old }
    ensures { Matched (requests_of graph.now.ends.now) mates.new }
{
    let mut sizes = [0; 512];
    let largest = measure(graph, &mut sizes);
    let spare = ((512 - graph.count) % 64) as u16;
    let mut low = 1;
    while spare + low < largest {
        pair_class(graph, &sizes, mates, spare + low, spare + 2 * low);
        low *= 2;
    }
}

// Every number at its own place.
pub fn identity() -> [u16; 512]
    ensures { Identity result }
{
    array::from_fn(|z| z as u16)
}
