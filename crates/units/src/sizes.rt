// Which numbers are window sizes, and which size a table's number puts in force.
ghost use Rattle.std.specs.Prelude.{◌≡◌};
ghost use Rattle.units.specs.Sizes.{is_size, in_force, default_size};

use crate::limits;

// The size that 0 stands for.
pub fn default_size() -> u16
    ensures { result ≡ default_size }
{
    8
}

// Whether n is a window's size: exactly one bit set, and at most 128. [G2]
pub fn is_size(n: u16) -> bool
    ensures { result ≡ is_size n }
{
    n.count_ones() == 1 && n <= limits::WINDOW
}

// The size that a table's number puts in force.
pub fn in_force(w: u16) -> u16
    ensures { result ≡ in_force w }
{
    if w == 0 {
        return default_size();
    }
    w
}
