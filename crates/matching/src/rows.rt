// The rows of a blossom: what rows the odd vertices of its cycle get when they become even.
ghost use Rattle.std.specs.Prelude.{◌≡◌, ◌⊎◌, ℕ, ◌<◌, get_or};
ghost use Rattle.matching.specs.declared.climbs.Side.TheVariants.{Neither, First, Second};
ghost use Rattle.matching.specs.declared.labels.VertexLabel.TheVariants.{Free, Odd};
ghost use Rattle.matching.specs.Internal.Search.{Square};
ghost use Rattle.matching.specs.Internal.Rows.{below_in, mixed_entry, Readable, Located, Unmixed, Sparse};
ghost use Rattle.matching.specs.Internal.Rows.{AbsorbedRow, AbsorbedVertex, Absorbed};

use super::climbs::{Marks, Side};
use super::labels::VertexLabel;
use super::matchings::Search;
use super::steps::{copy_row, pair_in_row};
use sets::members;

impl Search {
    // Whether z is below the odd vertex v of the tree.
    fn below(&self, rows: &[[u16; 512]], m: usize, v: usize, z: usize) -> bool
        requires { Located m rows.now self.now.mates v z }
        ensures { result ≡ below_in rows.now self.now.labels self.now.mates v z }
    {
        match self.labels[z] {
            VertexLabel::Even => rows[z][v] != self.mates[v],
            VertexLabel::Odd => {
                if z == v {
                    return false;
                }
                let even = usize::from(self.mates[z]);
                rows[even][v] != self.mates[v]
            }
            _ => false,
        }
    }

    // The entry at z of row p below v and of row q elsewhere. The two rows mostly agree.
    fn mixed_entry(
        &self,
        rows: &[[u16; 512]],
        m: usize,
        p: usize,
        q: usize,
        v: usize,
        z: usize,
    ) -> u16
        requires { Located m rows.now self.now.mates v z × (p < m) × (q < m) }
        ensures { result ≡ mixed_entry rows.now self.now.labels self.now.mates p q v z }
    {
        let inner = rows[p][z];
        let outer = rows[q][z];
        if inner == outer {
            return outer;
        }
        if self.below(rows, m, v, z) {
            inner
        } else {
            outer
        }
    }

    // Row v becomes the row of v, which is above p and not above q, once it is even: row q but for vertices that
    // join. Row v is not read, since v is odd.
    fn absorb_row(
        &self,
        rows: &mut [[u16; 512]],
        joined: &[u64; 8],
        p: usize,
        q: usize,
        v: usize,
        m: usize,
    )
        requires { Square m rows.old × Readable m self.now.labels self.now.mates p q × (v < m) × (get_or self.now.labels v Free ≡ Odd)
            × Unmixed m rows.old self.now.labels self.now.mates joined.now p q v }
        ensures { AbsorbedRow m rows.old rows.new self.now.labels self.now.mates p q v }
    {
        copy_row(rows, q, v);
        for z in members(joined, 0, m) {
            let entry = self.mixed_entry(rows, m, p, q, v, z);
            rows[v][z] = entry;
        }
        pair_in_row(&mut rows[v], q, p, v);
    }

    // The vertex v gets its row where the cycle has it.
    fn absorb_vertex(
        &self,
        rows: &mut [[u16; 512]],
        joined: &[u64; 8],
        side: Side,
        x: usize,
        y: usize,
        v: usize,
        m: usize,
    )
        requires { Square m rows.old × Readable m self.now.labels self.now.mates x y × (v < m)
            × ((side ≡ Neither) ⊎ (get_or self.now.labels v Free ≡ Odd))
            × (side ≡ First → Unmixed m rows.old self.now.labels self.now.mates joined.now x y v)
            × (side ≡ Second → Unmixed m rows.old self.now.labels self.now.mates joined.now y x v) }
        ensures { AbsorbedVertex m rows.old rows.new self.now.labels self.now.mates side x y v }
    {
        match side {
            Side::Neither => {}
            Side::First => self.absorb_row(rows, joined, x, y, v, m),
            Side::Second => self.absorb_row(rows, joined, y, x, v, m),
        }
    }

    // Every vertex of the cycle gets its row. Only rows of odd vertices are written and only rows of even ones read.
    pub fn absorb(
        &self,
        rows: &mut [[u16; 512]],
        marks: &Marks,
        joined: &[u64; 8],
        x: usize,
        y: usize,
        m: usize,
    )
        requires { Square m rows.old × Readable m self.now.labels self.now.mates x y
            × ((v : ℕ) → v < m → (get_or marks.now.sides v Neither ≡ Neither) ⊎ (get_or self.now.labels v Free ≡ Odd))
            × Sparse m rows.old self.now.labels self.now.mates marks.now.sides marks.now.cycle joined.now x y }
        ensures { Square m rows.new
            × Absorbed m rows.old rows.new self.now.labels self.now.mates marks.now.sides x y }
    {
        for v in members(&marks.cycle, 0, m) {
            self.absorb_vertex(rows, joined, marks.sides[v], x, y, v, m);
        }
    }
}
