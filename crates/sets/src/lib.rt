// Sets of numbers below 512, as eight words of 64 bits: number z is bit z % 64 of word z / 64.
#![tactic(auto)]

ghost use Rattle.std.specs.Prelude.{◌≡◌, true, false, ◌||◌, ℕ, ◌-◌, ◌<◌, ◌≤◌, eqb, length};
ghost use Rattle.std.specs.Iterator.{at_most};
ghost use Rattle.sets.specs.Sets.{bit, has, Walks};

// Puts z into the set.
pub fn add(words: &mut [u64; 8], z: usize)
    requires { z < 512 }
    ensures { (length words.new ≡ 8) × ((y : ℕ) → has words.new y ≡ (eqb y z || has words.old y)) }
{
    words[z / 64] |= 1 << (z % 64);
}

// The lowest bit of a word that is not 0.
fn lowest(word: u64) -> usize
    requires { 0 < word }
    ensures { (result < 64) × (bit word result ≡ 1) × ((k : ℕ) → k < result → bit word k ≡ 0) }
{
    word.trailing_zeros() as usize
}

// The first number of the set from `from` on and below m, or m: word by word, the first one without the numbers below `from`.
pub fn next(words: &[u64; 8], from: usize, m: usize) -> usize
    requires { (m ≤ 512) × (from ≤ m) }
    ensures { (from ≤ result) × (result ≤ m) × ((z : ℕ) → from ≤ z → z < result → has words.now z ≡ false)
        × (result < m → has words.now result ≡ true) }
{
    let mut mask = u64::MAX << (from % 64);
    for k in from / 64..m.div_ceil(64) {
        let word = words[k] & mask;
        if word != 0 {
            return m.min(64 * k + lowest(word));
        }
        mask = u64::MAX;
    }
    m
}

// A walk over the numbers of a set from `from` on and below `end`, in their order. The fields are for the invariants of loops over it: they
// say how far a loop has come.
#[derive(Drop)]
pub struct Walk<'a> {
    pub words: &'a [u64; 8],
    pub from: usize,
    pub end: usize,
    ghost few: { end ≤ 512 },
}

// The numbers of the set from `from` on and below m.
pub fn members(words: &[u64; 8], from: usize, m: usize) -> Walk<'_>
    requires { m ≤ 512 }
    ensures { (result.words.now ≡ words.now) × (result.from ≡ from) × (result.end ≡ m) }
{
    Walk {
        words,
        from,
        end: m,
    }
}

impl<'a> Iterator for Walk<'a> {
    type Item = usize;

    ghost next_gives = { λ s r t. Walks s.words.now s.from s.end r t.words.now t.from t.end };

    ghost remaining = { λ s. at_most (s.end - s.from) };

    fn next(&mut self) -> Option<usize> {
        if self.end <= self.from {
            return None;
        }
        let z = next(self.words, self.from, self.end);
        if z == self.end {
            self.from = self.end;
            return None;
        }
        self.from = z + 1;
        Some(z)
    }
}
