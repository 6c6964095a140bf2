// A blossom: the new bases, and the vertices that become even.
ghost use Rattle.std.specs.Prelude.{◌≡◌, false, not, ◌&&◌, ℕ, ◌+◌, ◌<◌, ◌≤◌, eqb, get_or};
ghost use Rattle.ring.proofs.Counting.{count};
ghost use Rattle.sets.specs.Sets.{has};
ghost use Rattle.matching.specs.declared.climbs.Side.TheVariants.{Neither};
ghost use Rattle.matching.specs.Internal.Model.{among};
ghost use Rattle.matching.specs.Internal.Steps.{base_on, off_cycle, on_cycle, with_bases, with_queue, Promoted};
ghost use Rattle.matching.specs.Internal.Bases.{has_below, Rebased, Rebasable, BlossomBased};

use super::climbs::{Marks, Side};
use super::labels::VertexLabel;
use super::matchings::Search;
use sets::{add, members};

// Whether a vertex with this side is on the cycle.
fn is_on(side: Side) -> bool
    ensures { result ≡ not (off_cycle side) }
{
    match side {
        Side::Neither => false,
        Side::First | Side::Second => true,
    }
}

impl Search {
    // The vertex z gets the base b and is put into the set of those that joined, if its base is on.
    fn rebase_vertex(&mut self, marks: &Marks, joined: &mut [u64; 8], b: usize, z: usize)
        requires { (z < 512) × (b < 512) × (get_or self.old.bases z 0 < 512) }
        ensures { Rebased b (λ y. eqb y z && base_on self.old.bases marks.now.on z) self.old.bases joined.old self.new.bases joined.new
            × (self.new ≡ with_bases self.old self.new.bases) }
    {
        let c = usize::from(self.bases[z]);
        if marks.on[c] {
            self.bases[z] = b as u16;
            add(joined, z);
        }
    }

    // The queued vertices whose base is on get the base b.
    fn rebase_queued(&mut self, marks: &Marks, joined: &mut [u64; 8], b: usize, m: usize)
        requires { (m ≤ 512) × (b < m) × (self.old.clock ≤ 512) × ((z : ℕ) → z < m → get_or self.old.bases z 0 < m)
            × ((i : ℕ) → i < self.old.clock → get_or self.old.queue i 0 < m) }
        ensures { Rebased b (λ z. among self.old.queue self.old.clock z && base_on self.old.bases marks.now.on z)
            self.old.bases joined.old self.new.bases joined.new
            × (self.new ≡ with_bases self.old self.new.bases) }
    {
        for i in 0..self.clock {
            let z = usize::from(self.queue[i]);
            self.rebase_vertex(marks, joined, b, z);
        }
    }

    // The vertices of the cycle get the base b.
    fn rebase_cycle(&mut self, marks: &Marks, joined: &mut [u64; 8], b: usize, m: usize)
        requires { (m ≤ 512) × (b < m) }
        ensures { Rebased b (has_below m marks.now.cycle) self.old.bases joined.old self.new.bases joined.new
            × (self.new ≡ with_bases self.old self.new.bases) }
    {
        for z in members(&marks.cycle, 0, m) {
            self.bases[z] = b as u16;
            add(joined, z);
        }
    }

    // Those that come to the class of the blossom get the base b; the set of them.
    pub fn rebase(&mut self, marks: &Marks, b: usize, m: usize) -> [u64; 8]
        requires { Rebasable m b self.old }
        ensures { BlossomBased m b self.old marks.now self.new result }
    {
        let mut joined = [0u64; 8];
        self.rebase_queued(marks, &mut joined, b, m);
        self.rebase_cycle(marks, &mut joined, b, m);
        joined
    }

    // The vertices of the cycle become even and come to the end of the queue.
    pub fn promote(&mut self, marks: &Marks, m: usize)
        requires { (m ≤ 512) × (self.old.clock + count (on_cycle m marks.now.sides) m ≤ 512)
            × ((v : ℕ) → v < m → has marks.now.cycle v ≡ false → get_or marks.now.sides v Neither ≡ Neither) }
        ensures { Promoted m m marks.now.sides self.old.labels self.old.queue self.old.clock self.new.labels self.new.queue self.new.clock
            × (self.new ≡ with_queue self.old self.new.labels self.new.queue self.new.clock) }
    {
        for z in members(&marks.cycle, 0, m) {
            if is_on(marks.sides[z]) {
                self.labels[z] = VertexLabel::Even;
                self.queue[self.clock] = z as u16;
                self.clock += 1;
            }
        }
    }
}
