// The precedence test.
ghost use Rattle.std.specs.Prelude.{◌≡◌};
ghost use Rattle.checker.specs.Precedence.{grouped};

// Whether an operand may stand beside an operator of a level: on its right one that binds tighter, on its left one that an operator of this level may follow. `reach` is
// how tightly it binds there, and the tightest operator that may follow it here.
pub fn groups(level: usize, reach: usize, right: bool) -> bool
    ensures { result ≡ grouped level reach right }
{
    if right {
        return level < reach;
    }
    level <= reach
}
