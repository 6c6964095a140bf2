// The length of the stored form for each number of records.
ghost use Rattle.std.specs.Prelude.{◌≡◌, ◌≤◌};
ghost use Rattle.stored.specs.Forms.{later_blocks, stored_length};

use super::forms::Form;

impl Form {
    // The blocks behind block 0: one for every begun group of the records that fill a block.
    #[tactic(auto, using(crate::proofs::FormLaws::later_groups))]
    fn later_blocks(self, count: usize) -> usize
        requires { count ≤ 512 }
        ensures { result ≡ later_blocks self count }
    {
        count.div_ceil(self.block_records())
    }

    #[tactic(auto, using(crate::proofs::FormLaws::length_small))]
    pub fn stored_length(self, count: usize) -> usize
        requires { count ≤ 512 }
        ensures { result ≡ stored_length self count }
    {
        512 + 512 * self.later_blocks(count)
    }
}
