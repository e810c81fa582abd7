// Colour spaces by number, and a head under one.
ghost use Rattle.std.specs.Prelude.{◌≡◌};
ghost use Rattle.head_rules.specs.Colours.{FindsColour, colour_number, colour_of};
ghost use Rattle.head_rules.specs.Answers.{known};
ghost use Rattle.head_rules.specs.Heads.{under};

use head_rules::{ColourSpace, Head};
use refusals::Refusal;

// The numbers of the colour spaces.
const UNSPECIFIED: u32 = 0;

const LINEAR: u32 = 1;

const SRGB: u32 = 2;

// A function and no `From`, for the colour space is declared in head_rules, which holds no code.
pub fn number_of(colour_space: ColourSpace) -> u32
    ensures { result ≡ colour_number colour_space }
{
    match colour_space {
        ColourSpace::Unspecified => UNSPECIFIED,
        ColourSpace::Linear => LINEAR,
        ColourSpace::Srgb => SRGB,
    }
}

// The colour space of a number, which is unspecified where there is none.
pub fn colour_of(number: u32) -> ColourSpace
    ensures { result ≡ colour_of number }
{
    if number == SRGB {
        return ColourSpace::Srgb;
    }
    if number == LINEAR {
        return ColourSpace::Linear;
    }
    ColourSpace::Unspecified
}

// The same, or 18 where there is none. No `TryFrom`, for the same reason.
pub fn colour_numbered(number: u32) -> Result<ColourSpace, Refusal>
    ensures { FindsColour number result }
{
    if number > SRGB {
        return Err(Refusal::BadColourSpace);
    }
    Ok(colour_of(number))
}

// A head with all that it says, but for the colour space.
pub fn under(colour_space: ColourSpace, head: Head) -> Head
    ensures { known result ≡ under colour_space (known head) }
{
    Head {
        colour_space,
        ..head
    }
}
