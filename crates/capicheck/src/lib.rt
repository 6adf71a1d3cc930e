#![tactic(auto)]
// The function that a program in C or Rust calls to check a reading. A slice is a pointer and a length there.
ghost use Rattle.checker.specs.Check.{Checks};

use checker::check;

// Whether a table and a text from anyone are the reading of a source.
pub fn vealtikum_check(source: &[u8], nodes: &[u16], text: &[u8]) -> bool
    ensures { Checks source.now nodes.now text.now result }
{
    check(source, nodes, text)
}
