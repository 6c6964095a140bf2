// The maximum matching.
ghost use Rattle.ring.specs.Requests.{requests_of, ValidRequests};
ghost use Rattle.matching.specs.Maximum.{MaximumMatching};
ghost use Rattle.matching.specs.Internal.Progress.{Ready};

use super::counts::pair_count;
use super::labels::VertexLabel;
use super::matchings::Matching;
use super::roots::{search_from, settle_alone};
use super::starts::{greedy, identity};
use neighbours::{Graph, prefixes};

// The state that the searches begin with: a matching that is found fast, and no request reached but those that are adjacent to none.
pub fn start(graph: &Graph) -> Matching
    ensures { Ready (requests_of graph.now.ends.now) result }
{
    let mut bases = identity();
    let mut mates = bases;
    greedy(graph, &mut mates);
    let mut labels = [VertexLabel::Free; 512];
    let root = settle_alone(graph, &mates, &mut labels, &mut bases, 0);
    Matching {
        mates,
        labels,
        bases,
        root,
        size: pair_count(&mates, graph.count),
    }
}

// A maximum matching among the requests of a list: it starts from a matching that is found fast, and searches from each exposed request for
// a larger one. O(m³) for m requests.
pub fn maximum(ends: &[u16]) -> Matching
    requires { ValidRequests 256 (requests_of ends.now) }
    ensures { MaximumMatching (requests_of ends.now) result }
{
    let mut sets = [[0; 8]; 257];
    prefixes(ends, &mut sets);
    let graph = Graph::new(ends, &sets);
    search_from(&graph, start(&graph))
}
