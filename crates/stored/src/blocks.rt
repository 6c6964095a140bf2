// Blocks of 512 bytes: block number, check, zeros.
ghost use Rattle.std.specs.Prelude.{◌≡◌, length};
ghost use Rattle.stored.specs.Blocks.{check_of};
ghost use Rattle.stored.specs.Internal.Handing.{sealed};
ghost use Rattle.stored.specs.Reading.{block_right};

use super::words::{put_word, word_at};

// Bytes 0 to 509, each times its position plus one, summed, modulo 65,521.
pub fn check_of(block: &[u8]) -> u16
    requires { length block.now ≡ 512 }
    ensures { result ≡ check_of block.now }
{
    let weighed = &block[..510];
    let mut sum: u32 = 0;
    for (i, byte) in weighed.iter().enumerate() {
        sum += u32::from(*byte) * (i as u32 + 1);
    }
    (sum % 65521) as u16
}

// Writes the block number and the check.
pub fn seal(block: &mut [u8], number: u16)
    requires { length block.old ≡ 512 }
    ensures { block.new ≡ sealed number block.old }
{
    put_word(block, 508, number);
    let check = check_of(block);
    put_word(block, 510, check);
}

// Whether the block number and the check are right.
#[tactic(auto, unfolding(crate::specs::Reading::block_right))]
pub fn block_right(block: &[u8], number: u16) -> bool
    requires { length block.now ≡ 512 }
    ensures { result ≡ block_right number block.now }
{
    word_at(block, 508) == number && word_at(block, 510) == check_of(block)
}
