// The state of the matching, and that of the searches that enlarge it.

use super::labels::VertexLabel;

// mates: an exposed request is its own mate. bases: of the even ones.
// root: the request that the next search begins from, or the number of requests, once no search is due. size: the number of pairs.
#[derive(Clone, Copy)]
pub struct Matching {
    pub mates: [u16; 512],
    pub labels: [VertexLabel; 512],
    pub bases: [u16; 512],
    pub root: usize,
    pub size: usize,
}

// What the searches work on. mates, labels and bases are as above; parents: of the odd requests; queue: the even ones, `clock` many, in the
// order in which they became so. It is lent to each search: no derive lets so many arrays be copied.
#[derive(Drop)]
pub struct Search {
    pub mates: [u16; 512],
    pub labels: [VertexLabel; 512],
    pub bases: [u16; 512],
    pub parents: [u16; 512],
    pub queue: [u16; 512],
    pub clock: usize,
}
