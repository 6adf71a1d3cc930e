#![tactic(auto)]
// HCL's grammar as the reader and the checker ask it.
pub mod kinds;
pub mod moves;
pub mod picks;
pub mod program;
pub mod shape;
