// The steps of an address along the chain of boards.
ghost use Rattle.std.specs.Prelude.{◌≡◌};
ghost use Rattle.gate.specs.Chain.{steps_down, steps_up};
ghost use Rattle.gate.specs.Contract.{hop_of, onward_of};

use framing::Refusal;

// Downward the frame goes on with an address that is one less. At 0 it is meant for here, and goes no further; 0 has no step.
pub fn step_down(address: u8) -> Result<Option<u8>, Refusal>
    ensures { hop_of result ≡ steps_down address }
{
    match address {
        0 => Err(Refusal::NoStep),
        1 => Ok(None),
        _ => Ok(Some(address - 1)),
    }
}

// Upward it goes on with an address that is one more; 255 has no step.
pub fn step_up(address: u8) -> Result<u8, Refusal>
    ensures { onward_of result ≡ steps_up address }
{
    address.checked_add(1).ok_or(Refusal::NoStep)
}
