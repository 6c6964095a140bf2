// The searches from all exposed requests.
ghost use Rattle.std.specs.Prelude.{◌≡◌, ◌&&◌, ◌<◌, ◌≤◌, not, eqb, length, get_or};
ghost use Rattle.ring.specs.Requests.{requests_of};
ghost use Rattle.matching.specs.declared.labels.VertexLabel.TheVariants.{Free};
ghost use Rattle.matching.specs.Maximum.{is_frozen};
ghost use Rattle.matching.specs.Internal.Adjacency.{Alone};
ghost use Rattle.matching.specs.Internal.Search.{Square};
ghost use Rattle.matching.specs.Internal.Progress.{Due, Rooted, Ready};

use super::counts::pair_count;
use super::labels::VertexLabel;
use super::matchings::{Matching, Search};
use neighbours::Graph;
use sets::members;

// Whether r is exposed and not frozen.
fn is_open(mates: &[u16; 512], labels: &[VertexLabel; 512], r: usize) -> bool
    requires { r < 512 }
    ensures { result ≡ (eqb (get_or mates.now r 0) r && not (is_frozen (get_or labels.now r Free))) }
{
    usize::from(mates[r]) == r && !labels[r].is_frozen()
}

// Whether no request is adjacent to r.
fn alone(graph: &Graph, r: usize) -> bool
    requires { r < graph.now.count }
    ensures { Alone (requests_of graph.now.ends.now) r result }
{
    let mut around = [0; 8];
    graph.neighbours(r, &mut around);
    for z in members(&around, 0, graph.count) {
        if z != r {
            return false;
        }
    }
    true
}

// From `from` on, freezes the open requests to which none is adjacent, up to the first from which a search is due; gives that one, or the
// number of requests.
pub fn settle_alone(
    graph: &Graph,
    mates: &[u16; 512],
    labels: &mut [VertexLabel; 512],
    bases: &mut [u16; 512],
    from: usize,
) -> usize
    requires { Due (requests_of graph.now.ends.now) mates.now labels.old bases.old from }
    ensures { Rooted (requests_of graph.now.ends.now) mates.now labels.new bases.new result × (from ≤ result) }
{
    for r in from..graph.count {
        if is_open(mates, labels, r) {
            if !alone(graph, r) {
                return r;
            }
            labels[r] = VertexLabel::FrozenEven;
            bases[r] = r as u16;
        }
    }
    graph.count
}

// Searches from each open request from the root on that has a neighbour, with a row for each request.
fn search_all(graph: &Graph, rows: &mut [[u16; 512]], matching: Matching) -> Matching
    requires { Ready (requests_of graph.now.ends.now) matching × Square graph.now.count rows.old }
    ensures { Ready (requests_of graph.now.ends.now) result × (result.root ≡ graph.now.count) }
{
    let Matching {
        mates,
        labels,
        bases,
        root,
        ..
    } = matching;
    let mut search = Search {
        mates,
        labels,
        bases,
        parents: [0; 512],
        queue: [0; 512],
        clock: 0,
    };
    let mut r = root;
    while r < graph.count {
        search.run(graph, rows, r);
        r = settle_alone(
            graph,
            &search.mates,
            &mut search.labels,
            &mut search.bases,
            r + 1,
        );
    }
    let size = pair_count(&search.mates, graph.count);
    let Search {
        mates,
        labels,
        bases,
        ..
    } = search;
    Matching {
        mates,
        labels,
        bases,
        root: r,
        size,
    }
}

// The same, with so many rows.
fn with_rows<const ROWS: usize>(graph: &Graph, matching: Matching) -> Matching
    requires { Ready (requests_of graph.now.ends.now) matching × (graph.now.count ≤ ROWS) × (ROWS ≤ 512) }
    ensures { Ready (requests_of graph.now.ends.now) result × (result.root ≡ graph.now.count) }
{
    let zeros = [0u16; 512];
    let mut rows = [zeros; ROWS];
    search_all(graph, &mut rows, matching)
}

// The same. Rows are what takes memory and time to lay out, so a short list gets few of them.
pub fn search_from(graph: &Graph, matching: Matching) -> Matching
    requires { Ready (requests_of graph.now.ends.now) matching }
    ensures { Ready (requests_of graph.now.ends.now) result × (result.root ≡ graph.now.count) }
{
    if matching.root == graph.count {
        return matching;
    }
    match graph.count {
        0..=64 => with_rows::<64>(graph, matching),
        65..=128 => with_rows::<128>(graph, matching),
        129..=256 => with_rows::<256>(graph, matching),
        _ => with_rows::<512>(graph, matching),
    }
}
