// The check byte of a frame: polynomial x^8 + x^2 + x + 1, highest bit first, start value all ones, no final change.
// Proved: `check` is the check byte that specs/Polynomial.antt works out from the polynomial, for every slice; bytes
// followed by their check byte come to 0, and with no other last byte do they (specs/Laws.antt).
#![tactic(auto)]

ghost use Rattle.std.specs.Prelude.{◌≡◌};
ghost use Rattle.check8.specs.Polynomial.{times_x, step_byte, check_of};

// The polynomial x^8 + x^2 + x + 1: bit k is the coefficient of x^k. [C1]
const POLYNOMIAL: u16 = 0x107;

// All ones. [C2]
const START: u8 = 0xFF;

// One bit's step: times x. Below 128 there is no x^7, and the bits move up one place; otherwise an x^8 comes of it, and
// the polynomial is taken away. [C1, C4]
fn times_x(r: u8) -> u8
    ensures { result ≡ times_x r }
{
    if r < 128 {
        return r * 2;
    }
    ((r as u16 * 2) ^ POLYNOMIAL) as u8
}

// A byte's eight steps: the check byte c with one byte more. [C1, C4]
#[tactic(auto, unfolding(crate::specs::Polynomial::times_xs, crate::specs::Polynomial::step_byte))]
pub fn step(c: u8, b: u8) -> u8
    ensures { result ≡ step_byte c b }
{
    let mut r = c ^ b;
    for _ in 0..8u8 {
        r = times_x(r);
    }
    r
}

// The check byte of a slice.
pub fn check(bytes: &[u8]) -> u8
    ensures { result ≡ check_of bytes.now }
{
    let mut c = START;
    for b in bytes {
        c = step(c, *b);
    }
    c
}
