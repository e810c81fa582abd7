// Why a call is refused, by the names of include/rinchovek.h, with which the gate compares them (.ci/header): what each means, and when it is given,
// docs/REFUSALS.md says. The profile's two have no call for C yet. specs/ says the number of each, and what an answer that may be refused says. No
// function stands here, so that the second decoder can name a refusal and share no code with the first.

#![tactic(auto)]

#[derive(Clone, Copy, PartialEq, Eq)]
pub enum Refusal {
    ReservedBlock = 1,
    NoSuchLine = 2,
    ValueTooWide = 3,
    PBitsDiffer = 4,
    WrongKind = 5,
    AnchorBitSet = 6,
    BadNumber = 7,
    UnknownForm = 8,
    BadSide = 9,
    WrongBlockBytes = 10,
    WrongOutputLength = 11,
    BeyondSheet = 12,
    PixelNotInLine = 13,
    NoExactIndex = 14,
    NotABc7Texture = 15,
    ColourSpaceStated = 16,
    ProfileSides = 17,
    BadColourSpace = 18,
    FalseCounts = 19,
    ProfileBlock = 20,
    NoSuchPixel = 21,
    NotAChannel = 23,
}
