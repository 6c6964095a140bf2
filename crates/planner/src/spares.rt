// The spare colours: each goes to the lowest request that is still blocked.
ghost use Rattle.std.specs.Prelude.{◌≡◌, ◌≤◌};
ghost use Rattle.planner.specs.Internal.Filling.{spare_after, number_after, filled_table};

use ring::{Fate, Way};

// A request goes plain in the first spare colour, if it is blocked and there is one: the spare colours are the last of the w. How many are
// left then is given back.
fn take_spare(number: &mut u16, spare: u16, w: u16) -> u16
    requires { (w ≤ 128) × (spare ≤ w) }
    ensures { (result ≡ spare_after spare number.old) × (number.new ≡ number_after w spare number.old) }
{
    if *number != 0 || spare == 0 {
        return spare;
    }
    *number = Fate::Served(Way::Plain, w - spare).number();
    spare - 1
}

// The last of the w colours, as many as are spare, rising, each go to the lowest request of the table that is still blocked.
pub fn fill(mut spare: u16, w: u16, table: &mut [u16])
    requires { (w ≤ 128) × (spare ≤ w) }
    ensures { table.new ≡ filled_table w spare table.old }
{
    for number in table.iter_mut() {
        spare = take_spare(number, spare, w);
    }
}
