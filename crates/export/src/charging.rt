// Charges by a book in its stored form.
ghost use Rattle.std.specs.Prelude.{◌≡◌};
ghost use Rattle.export.specs.BookCalls.{charge_all_call, charge_call};
ghost use Rattle.outcomes.specs.Cents.{CentsGiven};

use outcomes::charging::{charge_all_in, charge_in, put_cents};
use ring::Refusal;
use stored::load;

// Loads a book, and charges for an order of it.
#[tactic(auto, unfolding(crate::specs::BookCalls::charge_call))]
fn charge(bytes: &[u8], serial: u16, lengths: &[u32], rates: &[u32]) -> Result<u64, Refusal>
    ensures { result ≡ charge_call bytes.now serial lengths.now rates.now }
{
    charge_in(&load(bytes, 0)?, serial, lengths, rates)
}

// Loads a book, and charges for its live orders together.
#[tactic(auto, unfolding(crate::specs::BookCalls::charge_all_call))]
fn charge_all(bytes: &[u8], lengths: &[u32], rates: &[u32]) -> Result<u64, Refusal>
    ensures { result ≡ charge_all_call bytes.now lengths.now rates.now }
{
    charge_all_in(&load(bytes, 0)?, lengths, rates)
}

// Charges for an order of the book in the bytes, by the links' lengths and three rates.
#[unsafe(no_mangle)]
pub extern "C" fn tarziloen_book_charge(
    bytes: &[u8],
    serial: u16,
    lengths: &[u32],
    rates: &[u32],
    cents: &mut u64,
) -> u16
    ensures { CentsGiven (charge_call bytes.now serial lengths.now rates.now)
        cents.old cents.new result }
{
    put_cents(charge(bytes, serial, lengths, rates), cents)
}

// Charges for all live orders of the book in the bytes together.
#[unsafe(no_mangle)]
pub extern "C" fn tarziloen_book_charge_all(
    bytes: &[u8],
    lengths: &[u32],
    rates: &[u32],
    cents: &mut u64,
) -> u16
    ensures { CentsGiven (charge_all_call bytes.now lengths.now rates.now)
        cents.old cents.new result }
{
    put_cents(charge_all(bytes, lengths, rates), cents)
}
