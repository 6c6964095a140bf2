// What an order pays, and what the live orders of a book pay together.
ghost use Rattle.std.specs.Prelude.{◌≡◌, ◌≤◌, IfOk};
ghost use Rattle.std.specs.Result.{result_and};
ghost use Rattle.book.specs.Books.{live_of};
ghost use Rattle.charges.specs.Charges.{tariff_verdict, charge_verdict, charged, book_charged, ChargePromise};
ghost use Rattle.charges.specs.Internal.Distances.{charge_by, charges_by};
ghost use Rattle.charges.specs.Internal.Tariffs.{IsTariff};

use super::lengths::Distances;
use super::rates::Rates;
use book::{Book, Circuit};
use ring::Refusal;

// What circuits pay by.
#[derive(Drop)]
pub struct Tariff {
    pub distances: Distances,
    pub rates: Rates,
}

impl Tariff {
    // The tariff of the lengths of n links and of three rates, or 29, then 30.
    pub fn new(n: u16, lengths: &[u32], rates: &[u32]) -> Result<Tariff, Refusal>
        ensures ground { result_and result (Ok tt) ≡ tariff_verdict n lengths.now rates.now }
        ensures given { IfOk result (λ t. IsTariff lengths.now rates.now t) }
    {
        let distances = Distances::new(n, lengths)?;
        let rates = Rates::new(rates)?;
        Ok(Tariff { distances, rates })
    }

    // What a circuit pays.
    #[tactic(auto, unfolding(crate::specs::Internal::Distances::charge_by))]
    pub fn charge(&self, circuit: &Circuit) -> u64
        ensures exact { result ≡ charge_by self.now.rates self.now.distances.0 circuit.now }
        ensures bounded { result ≤ 20000000000000000 }
    {
        self.rates
            .cents(self.distances.metres(circuit.way, circuit.ends()))
    }

    // What the live circuits of a book pay.
    pub fn charges(&self, book: &Book) -> u64
        ensures { result ≡ charges_by self.now.rates self.now.distances.0 (live_of book.now) }
    {
        let mut paid: u64 = 0;
        for i in 0..book.record_count() {
            let circuit = &book.places[i];
            if circuit.is_live() {
                paid += self.charge(circuit);
            }
        }
        paid
    }
}

// What an order pays, in cents, or refusal 14, 15, 29 or 30.
pub fn charge(book: &Book, serial: u16, lengths: &[u32], rates: &[u32]) -> Result<u64, Refusal>
    ensures { ChargePromise book.now (charge_verdict book.now serial lengths.now rates.now)
        (charged book.now serial lengths.now rates.now) result }
{
    let circuit = book.show(serial, 0)?;
    let tariff = Tariff::new(book.n, lengths, rates)?;
    Ok(tariff.charge(&circuit))
}

// What the live orders of a book pay together, in cents, or refusal 29 or 30.
pub fn book_charge(book: &Book, lengths: &[u32], rates: &[u32]) -> Result<u64, Refusal>
    ensures { ChargePromise book.now (tariff_verdict book.now.n lengths.now rates.now)
        (book_charged book.now lengths.now rates.now) result }
{
    let tariff = Tariff::new(book.n, lengths, rates)?;
    Ok(tariff.charges(book))
}
