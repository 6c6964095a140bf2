// Tables of fate numbers.
ghost use Rattle.std.specs.Prelude.{◌≡◌, ◌++◌, ◌≤◌, length, drop, replicate};

// Every request blocked: the first m entries become 0.
pub fn clear(table: &mut [u16], m: usize)
    requires { m ≤ length table.old }
    ensures { table.new ≡ replicate m 0 ++ drop m table.old }
{
    table[..m].fill(0);
}
