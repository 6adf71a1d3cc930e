#![tactic(auto)]
// What a program in C or Rust links to check: the export calls the function of `capicheck` of its name, and promises the same.
ghost use Rattle.checker.specs.Check.{Checks};

// Whether a table and a text from anyone are the reading of a source.
#[unsafe(no_mangle)]
pub extern "C" fn vealtikum_check(source: &[u8], nodes: &[u16], text: &[u8]) -> bool
    ensures { Checks source.now nodes.now text.now result }
{
    capicheck::vealtikum_check(source, nodes, text)
}
