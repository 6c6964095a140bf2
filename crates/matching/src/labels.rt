// The labels of the vertices, and what becomes of them when a search begins and when it ends.
ghost use Rattle.std.specs.Prelude.{◌≡◌, ◌≤◌};
ghost use Rattle.matching.specs.Maximum.{is_frozen};
ghost use Rattle.matching.specs.Internal.Labelling.{unlabelled, frozen, Relabelled};

// Where a search has a vertex: free, or in its tree, at an even or an odd distance from the root; or frozen, in the tree of an earlier
// search, even or odd for good.
#[derive(Clone, Copy, Debug, PartialEq, Eq)]
pub enum VertexLabel {
    Free,
    Even,
    Odd,
    FrozenEven,
    FrozenOdd,
}

impl VertexLabel {
    // Whether it is a label for good.
    pub fn is_frozen(self) -> bool
        ensures { result ≡ is_frozen self }
    {
        match self {
            VertexLabel::Free | VertexLabel::Even | VertexLabel::Odd => false,
            VertexLabel::FrozenEven | VertexLabel::FrozenOdd => true,
        }
    }

    fn unlabelled(self) -> VertexLabel
        ensures { result ≡ unlabelled self }
    {
        match self {
            VertexLabel::Even | VertexLabel::Odd => VertexLabel::Free,
            _ => self,
        }
    }

    fn frozen(self) -> VertexLabel
        ensures { result ≡ frozen self }
    {
        if self == VertexLabel::Even {
            VertexLabel::FrozenEven
        } else if self == VertexLabel::Odd {
            VertexLabel::FrozenOdd
        } else {
            self
        }
    }
}

// Every label of a vertex that is not frozen becomes free.
pub fn unlabel(labels: &mut [VertexLabel; 512], m: usize)
    requires { m ≤ 512 }
    ensures { Relabelled m labels.old labels.new unlabelled }
{
    for z in 0..m {
        labels[z] = labels[z].unlabelled();
    }
}

// Even and odd vertices keep their labels for good.
pub fn freeze(labels: &mut [VertexLabel; 512], m: usize)
    requires { m ≤ 512 }
    ensures { Relabelled m labels.old labels.new frozen }
{
    for z in 0..m {
        labels[z] = labels[z].frozen();
    }
}
