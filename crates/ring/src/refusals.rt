// Every ground on which an operation turns a caller down, with the values that it carries.
ghost use Rattle.std.specs.Prelude.{◌≡◌};
ghost use Rattle.ring.specs.Refusals.{number_of, carried_by, refuse_if};

#[derive(Clone, Copy, Debug, PartialEq, Eq)]
pub enum Refusal {
    NodeCount,
    ColourCount,
    RequestCount,
    RequestEnd(u16),
    RequestEndsEqual(u16),
    TableShort,
    FateNumber(u16),
    Conflict(u16, u16),
    CircuitEnd,
    CircuitEndsEqual,
    WayNumber,
    ColourNumber,
    ColourHeld,
    BookFull,
    SerialsUsedUp,
    SerialNeverGiven,
    SerialRemoved,
    LinkNumber,
    BufferShort,
    StoredLength,
    BlockCheck,
    StoredForm,
    TextForm,
    LineCount,
    SerialLive,
    SerialConfirmed,
    MarkedRecord,
    CrewNumber,
    MarkedConversion,
    RevisionLow,
    LinkLengths,
    ChargeRates,
}

// The values that a refusal carries.
#[derive(Clone, Copy, Debug, PartialEq, Eq)]
pub enum Carried {
    None,
    One(u16),
    Two(u16, u16),
}

// A ground, if its test holds.
pub fn refuse_if(test: bool, ground: Refusal) -> Result<(), Refusal>
    ensures { result ≡ refuse_if test ground }
{
    if test { Err(ground) } else { Ok(()) }
}

impl Refusal {
    // Its number in the rules.
    pub fn number(self) -> u16
        ensures { result ≡ number_of self }
    {
        match self {
            Refusal::NodeCount => 1,
            Refusal::ColourCount => 2,
            Refusal::RequestCount => 3,
            Refusal::RequestEnd(_) | Refusal::CircuitEnd => 4,
            Refusal::RequestEndsEqual(_) | Refusal::CircuitEndsEqual => 5,
            Refusal::TableShort => 6,
            Refusal::FateNumber(_) => 7,
            Refusal::Conflict(_, _) => 8,
            Refusal::WayNumber => 9,
            Refusal::ColourNumber => 10,
            Refusal::ColourHeld => 11,
            Refusal::BookFull => 12,
            Refusal::SerialsUsedUp => 13,
            Refusal::SerialNeverGiven => 14,
            Refusal::SerialRemoved => 15,
            Refusal::LinkNumber => 16,
            Refusal::BufferShort => 17,
            Refusal::StoredLength => 18,
            Refusal::BlockCheck => 19,
            Refusal::StoredForm => 20,
            Refusal::TextForm => 21,
            Refusal::LineCount => 22,
            Refusal::SerialLive => 23,
            Refusal::SerialConfirmed => 24,
            Refusal::MarkedRecord => 25,
            Refusal::CrewNumber => 26,
            Refusal::MarkedConversion => 27,
            Refusal::RevisionLow => 28,
            Refusal::LinkLengths => 29,
            Refusal::ChargeRates => 30,
        }
    }

    // The request numbers that it carries.
    pub fn carried(self) -> Carried
        ensures { result ≡ carried_by self }
    {
        match self {
            Refusal::RequestEnd(request)
            | Refusal::RequestEndsEqual(request)
            | Refusal::FateNumber(request) => Carried::One(request),
            Refusal::Conflict(first, second) => Carried::Two(first, second),
            _ => Carried::None,
        }
    }
}
