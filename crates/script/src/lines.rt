// What a script asks for, line by line.
ghost use Rattle.std.specs.Prelude.{◌≤◌};

use line::Line;

// The calls stand apart, since their contracts cite definitions over this struct.
mod calls;

// The lines of an accepted script, in their order: the first `count` of the table. A script is `Copy`, which an `ArrayVec` is not.
#[derive(Clone, Copy)]
pub struct Script {
    lines: [Line; 32],
    count: usize,
    ghost within: { count ≤ 32 },
}
