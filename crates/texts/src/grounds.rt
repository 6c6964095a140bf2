// The grounds of refusals, in words.
ghost use Rattle.std.specs.Prelude.{◌≡◌};
ghost use Rattle.texts.specs.Grounds.{ground_of};
ghost use Rattle.texts.specs.Internal.Writing.{Room, Wrote};

use super::writing::Writer;
use ring::Refusal;

// A ground in words, to the end of its line.
pub fn ground_line(refusal: Refusal) -> &'static [u8]
    ensures { result.now ≡ ground_of refusal }
{
    match refusal {
        Refusal::NodeCount => b"n not 3 to 256\n",
        Refusal::ColourCount => b"w not 1 to 128\n",
        Refusal::RequestCount => b"more than 512 requests, or an odd number of ends\n",
        Refusal::RequestEnd(_) | Refusal::CircuitEnd => b"an end is n or more\n",
        Refusal::RequestEndsEqual(_) | Refusal::CircuitEndsEqual => b"equal ends\n",
        Refusal::TableShort => b"the plan table has fewer than m entries\n",
        Refusal::FateNumber(_) => b"a number above 2w\n",
        Refusal::Conflict(_, _) => b"two requests of one colour share a link\n",
        Refusal::WayNumber => b"way not 0 (plain) or 1 (seam)\n",
        Refusal::ColourNumber => b"colour w or more\n",
        Refusal::ColourHeld => b"that colour is held on a link of the way\n",
        Refusal::BookFull => b"512 circuits are live or pending, and the book has no other place\n",
        Refusal::SerialsUsedUp => b"serial 65,535 has been given\n",
        Refusal::SerialNeverGiven => b"serial 0 or never given\n",
        Refusal::SerialRemoved => b"removed\n",
        Refusal::LinkNumber => b"link n or more\n",
        Refusal::BufferShort => b"buffer shorter than the length\n",
        Refusal::StoredLength =>
            b"length 0, not a multiple of 512, or above 7,168 (5,120 in the old form)\n",
        Refusal::BlockCheck => b"a wrong block number or check\n",
        Refusal::StoredForm => {
            b"a record with fate number 0, or anything else that breaks the stored form, \
            a limit, the rising serials from 1 up to the grants so far, or feasibility\n"
        }
        Refusal::TextForm => b"more than 8,192 bytes, or a text not of the stated form\n",
        Refusal::LineCount => b"no line or more than 16\n",
        Refusal::SerialLive => b"the circuit is live\n",
        Refusal::SerialConfirmed => b"already confirmed\n",
        Refusal::MarkedRecord =>
            b"a record that is pending or whose crew is not 0 has no old form\n",
        Refusal::CrewNumber => b"crew above 999\n",
        Refusal::MarkedConversion =>
            b"a record that is pending or whose crew is not 0 cannot be converted back\n",
        Refusal::RevisionLow => b"revision too low\n",
        Refusal::LinkLengths => b"not n lengths, or a length not 1 to 1,000,000\n",
        Refusal::ChargeRates => b"not three rates, or a rate above 100,000\n",
    }
}

impl<'a> Writer<'a> {
    // The line of a ground.
    pub fn ground_line(&mut self, refusal: Refusal)
        requires { Room 160 self.old }
        ensures { Wrote self.old (ground_of refusal) self.new }
    {
        self.bytes(ground_line(refusal));
    }
}
