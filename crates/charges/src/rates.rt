// The three rates, and what so many metres cost.
ghost use Rattle.std.specs.Prelude.{◌≡◌, ◌*◌, ◌≤◌, IfOk};
ghost use Rattle.std.specs.Result.{result_and};
ghost use Rattle.charges.specs.Rates.{rates_in, rates_verdict, cents};

use super::limits::some_outside;
use ring::Refusal;

// Cents per kilometre: for the first 50,000 metres of a way, from there to 200,000, and beyond.
#[derive(Clone, Copy, Debug, PartialEq, Eq)]
pub struct Rates {
    pub first: u32,
    pub second: u32,
    pub third: u32,
}

// What metres cost at a rate, in thousandths of a cent.
fn priced(rate: u32, metres: u32) -> u64
    ensures exact { result ≡ rate * metres }
    ensures bounded { result ≤ 4294967295 * metres }
{
    u64::from(rate) * u64::from(metres)
}

impl Rates {
    // The three rates of a slice, or 30, for any number of rates but three, or a rate above 100,000.
    #[tactic(auto, unfolding(crate::specs::Rates::rates_verdict))]
    pub fn new(rates: &[u32]) -> Result<Rates, Refusal>
        ensures ground { result_and result (Ok tt) ≡ rates_verdict rates.now }
        ensures given { IfOk result (λ r. r ≡ rates_in rates.now) }
    {
        let [first, second, third] = rates else {
            return Err(Refusal::ChargeRates);
        };
        if some_outside(rates, 0, 100000) {
            return Err(Refusal::ChargeRates);
        }
        Ok(Rates {
            first: *first,
            second: *second,
            third: *third,
        })
    }

    // What so many metres cost, in cents: the bands together are rounded up once.
    #[tactic(auto, unfolding(crate::specs::Rates::cents, crate::specs::Rates::thousandths))]
    pub fn cents(self, metres: u32) -> u64
        ensures exact { result ≡ cents self metres }
        ensures bounded { result ≤ 20000000000000000 }
    {
        let first = priced(self.first, metres.min(50000));
        let second = priced(self.second, metres.min(200000).saturating_sub(50000));
        let third = priced(self.third, metres.saturating_sub(200000));
        (first + second + third + 999) / 1000
    }
}
