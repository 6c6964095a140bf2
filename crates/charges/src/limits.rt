// Numbers kept within limits.
ghost use Rattle.std.specs.Prelude.{◌≡◌};
ghost use Rattle.charges.specs.Lengths.{some_outside};

// Whether some number is below the least or above the most.
pub fn some_outside(numbers: &[u32], least: u32, most: u32) -> bool
    ensures { result ≡ some_outside least most numbers.now }
{
    numbers.iter().any(|x| *x < least || most < *x)
}
