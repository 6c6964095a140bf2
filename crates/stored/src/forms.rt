// The two stored forms, and what differs between them.
ghost use Rattle.std.specs.Prelude.{◌≡◌, ◌<◌, min};
ghost use Rattle.stored.specs.Forms.{block_records, first_record, form_mark, longest};
ghost use Rattle.stored.specs.Reading.{record_place};

// The old form has no room for states and crews.
#[derive(Clone, Copy, PartialEq, Eq)]
pub enum Form {
    Old,
    New,
}

impl Form {
    // The number in block 0 that tells the form.
    pub fn mark(self) -> u16
        ensures { result ≡ form_mark self }
    {
        match self {
            Form::Old => 0,
            Form::New => 2,
        }
    }

    // The length of the longest.
    pub fn longest(self) -> usize
        ensures { result ≡ longest self }
    {
        match self {
            Form::Old => 5120,
            Form::New => 7168,
        }
    }

    // Where a record of a block stands.
    #[tactic(auto, unfolding(crate::specs::Reading::record_place))]
    pub fn record_place(self, i: usize) -> usize
        requires { i < 512 }
        ensures { result ≡ record_place self i }
    {
        match self {
            Form::Old => 8 * i,
            Form::New => 12 * i,
        }
    }

    // The records that fill a later block.
    pub fn block_records(self) -> usize
        ensures { result ≡ block_records self }
    {
        match self {
            Form::Old => 63,
            Form::New => 42,
        }
    }

    // The number of the first record of a later block, these counted from 0.
    #[tactic(auto, using(crate::proofs::FormLaws::first_small), unfolding(crate::specs::Forms::first_record))]
    pub fn first_record(self, k: usize) -> usize
        requires { k < 512 }
        ensures { result ≡ first_record self k }
    {
        self.block_records() * k
    }

    // The records that a later block holds, of those that are left.
    pub fn block_share(self, left: usize) -> usize
        ensures { result ≡ min (block_records self) left }
    {
        self.block_records().min(left)
    }
}
