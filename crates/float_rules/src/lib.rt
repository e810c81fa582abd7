// What a pixel is as floats, and which channel a float is: definitions and theorems, no code. The crate `floats` has it.

#![tactic(auto)]

// A pixel as the blending code takes it.
#[derive(Clone, Copy)]
pub struct FloatPixel {
    pub red: f32,
    pub green: f32,
    pub blue: f32,
    pub alpha: f32,
}
