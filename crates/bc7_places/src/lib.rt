// The pages of `bc7_format` as code, a module for each page (the table of modes is a crate of its own): what a split says, where the fields
// of a block stand, and what a line has; and whether values fit their widths.

#![tactic(auto)]

pub mod fits;
pub mod lines;
pub mod places;
pub mod splits;
