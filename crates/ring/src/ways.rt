// The geometry of ways round the ring.
ghost use Rattle.std.specs.Prelude.{◌≡◌, ◌&&◌, ◌≤◌, min, max, leb, ltb};
ghost use Rattle.ring.specs.Ways.{within, uses};
ghost use Rattle.ring.specs.Internal.Sharing.{sharing};
ghost use Rattle.ring.specs.Chords.{inside};
ghost use Rattle.ring.specs.Routing.{seam_if, shorter_way};

use super::requests::Request;

// The two ways of a request {a, b}: links a to b - 1, or all the others.
#[derive(Clone, Copy, Debug, PartialEq, Eq)]
pub enum Way {
    Plain,
    Seam,
}

fn between(a: u16, b: u16, link: u16) -> bool
    ensures { result ≡ within a b link }
{
    a <= link && link < b
}

// Whether the way of a request uses a link.
pub fn uses(way: Way, request: Request, link: u16) -> bool
    ensures { result ≡ uses way request link }
{
    match way {
        Way::Plain => between(request.a, request.b, link),
        Way::Seam => !between(request.a, request.b, link),
    }
}

// Whether the first interval lies within the second.
fn contained(r: Request, s: Request) -> bool
    ensures { result ≡ (leb s.a r.a && leb r.b s.b) }
{
    s.a <= r.a && r.b <= s.b
}

// Whether the two intervals overlap.
fn overlapping(r: Request, s: Request) -> bool
    ensures { result ≡ ltb (max r.a s.a) (min r.b s.b) }
{
    r.a.max(s.a) < r.b.min(s.b)
}

// Whether the plain way of r shares a link with a way of s.
fn plain_shares(r: Request, second: Way, s: Request) -> bool
    ensures { result ≡ sharing Way.Plain r second s }
{
    match second {
        Way::Plain => overlapping(r, s),
        Way::Seam => !contained(r, s),
    }
}

// Whether the seam way of r shares a link with a way of s.
fn seam_shares(r: Request, second: Way, s: Request) -> bool
    ensures { result ≡ sharing Way.Seam r second s }
{
    match second {
        Way::Plain => !contained(s, r),
        Way::Seam => true,
    }
}

// Whether the ways of two requests share a link, by comparing ends.
pub fn ways_share(first: Way, r: Request, second: Way, s: Request) -> bool
    ensures { result ≡ sharing first r second s }
{
    match first {
        Way::Plain => plain_shares(r, second, s),
        Way::Seam => seam_shares(r, second, s),
    }
}

// Whether a node lies strictly between the ends of a request.
pub fn lies_inside(r: Request, x: u16) -> bool
    ensures { result ≡ inside r x }
{
    r.a < x && x < r.b
}

// The seam way if the test holds, else the plain way.
pub fn seam_if(test: bool) -> Way
    ensures { result ≡ seam_if test }
{
    if test { Way::Seam } else { Way::Plain }
}

// The way with fewer links, the plain one on a tie: the plain way has b - a links, the seam way the others of the n.
pub fn shorter_way(n: u16, r: Request) -> Way
    requires { (r.a ≤ r.b) × (r.b ≤ n) }
    ensures { result ≡ shorter_way n r }
{
    let plain = r.b - r.a;
    let seam = n - plain;
    seam_if(seam < plain)
}
