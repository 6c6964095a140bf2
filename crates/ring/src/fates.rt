// What becomes of a request, and its number in tables and stored forms.
ghost use Rattle.std.specs.Prelude.{◌≡◌, ◌<◌};
ghost use Rattle.ring.specs.Fates.{way_number, fate_number, fate_of};

use super::ways::Way;

#[derive(Clone, Copy, Debug, PartialEq, Eq)]
pub enum Fate {
    Blocked,
    Served(Way, u16),
}

// 0 for the plain way, 1 for the seam way.
impl From<Way> for u16 {
    ghost from_gives = { λ way number. number ≡ way_number way };

    fn from(way: Way) -> u16 {
        match way {
            Way::Plain => 0,
            Way::Seam => 1,
        }
    }
}

// The fate that a number stands for.
impl From<u16> for Fate {
    ghost from_gives = { λ number fate. fate ≡ fate_of number };

    fn from(number: u16) -> Fate {
        if number == 0 {
            return Fate::Blocked;
        }
        if number % 2 == 1 {
            Fate::Served(Way::Plain, number / 2)
        } else {
            Fate::Served(Way::Seam, number / 2 - 1)
        }
    }
}

impl Fate {
    // 0 blocked, 1 + 2c plain in colour c, 2 + 2c seam in colour c.
    pub fn number(self) -> u16
        requires { fate_number self < 65536 }
        ensures { result ≡ fate_number self }
    {
        match self {
            Fate::Blocked => 0,
            Fate::Served(way, colour) => 2 * colour + 1 + u16::from(way),
        }
    }
}
