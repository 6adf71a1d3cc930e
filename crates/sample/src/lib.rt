#![tactic(auto)]
// The language is in specs/: it shows what the crate `engine` proves of any language.
pub fn nothing(x: usize) -> usize {
    x
}
