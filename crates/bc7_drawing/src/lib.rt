// Drawing in BC7: endpoints as colours of eight bits, palettes of the colours between them, and pixels looked up in a palette by their keys.

#![tactic(auto)]

pub mod colour;
pub mod painting;
pub mod palette;
