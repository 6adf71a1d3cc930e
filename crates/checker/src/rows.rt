// The numbers of a table.
ghost use Rattle.std.specs.Prelude.{◌≡◌, ◌≤◌};

// A number of a table as a place or a count.
pub fn wide(x: u16) -> usize
    ensures { (result ≡ x) × (result ≤ 65535) }
{
    usize::from(x)
}
