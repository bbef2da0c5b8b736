// Where in a frame the fault sits that a refusal is for.
ghost use Rattle.std.specs.Prelude.{◌≡◌};
ghost use Rattle.frame.specs.Faults.{byte_number};

use crate::layout;
use units::refusals;

// What stands for the byte's number where there is none: C's number too, as the contract has it (`byte_number`).
pub const NO_BYTE: u8 = 255;

// The number of the byte, by the refusal's number: C asks by that, and of any number `byte_number` says it. [R47]
#[tactic(auto, unfolding(crate::specs::Faults::byte_number))]
pub fn fault_byte(refusal: u8) -> u8
    ensures { result ≡ byte_number refusal }
{
    match refusal {
        refusals::UNKNOWN_TYPE => layout::TYPE as u8,
        refusals::USER_BITS => layout::TYPE as u8,
        refusals::LENGTH_AGAINST_TYPE => layout::LENGTH as u8,
        refusals::WRONG_SEQUENCE => layout::SEQUENCE as u8,
        _ => NO_BYTE,
    }
}
