// The size of a matching.
ghost use Rattle.std.specs.Prelude.{◌≡◌, ◌≤◌, length};
ghost use Rattle.matching.specs.Maximum.{pairs_of};

// The number of pairs: each request below its mate stands for one.
pub fn pair_count(mates: &[u16; 512], m: usize) -> usize
    requires { m ≤ 512 }
    ensures { result ≡ length (pairs_of m mates.now) }
{
    mates[..m]
        .iter()
        .enumerate()
        .filter(|(i, mate)| *i < usize::from(**mate))
        .count()
}
