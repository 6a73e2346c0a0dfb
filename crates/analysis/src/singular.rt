// The strips of a singular model.
ghost use Rattle.std.specs.Prelude.{◌≡◌, [], ◌++◌, map, suc, ◌≤◌, length, drop};
ghost use Rattle.laws.specs.Marks.{marked};
ghost use Rattle.table.specs.Model.{limit};
ghost use Rattle.pairing.specs.Members.{members};
ghost use Rattle.analysis.specs.Outcome.{strips, answer_bytes};

use crate::strip::{listed, unused};
use table::LIMIT;

// The surplus equations, the unfixed unknowns, and three strips with nothing in them.
// Kept (point 5): the bounds are on the lengths of two slices, which E and U of the table give; whole arrays with E and U beside would be more to hand in.
pub fn write(answer: &mut [u8], surplus: &[bool], unfixed: &[bool])
    requires { (answer_bytes ≤ length answer.old) × (length surplus.now ≤ limit) × (length unfixed.now ≤ limit) }
    ensures { answer.new ≡ strips (map suc (members (length surplus.now) (marked surplus.now))) (map suc (members (length unfixed.now) (marked unfixed.now))) [] [] []
        ++ drop answer_bytes answer.old }
{
    listed(&mut answer[0..LIMIT], surplus);
    listed(&mut answer[LIMIT..2 * LIMIT], unfixed);
    unused(&mut answer[2 * LIMIT..3 * LIMIT]);
    unused(&mut answer[3 * LIMIT..4 * LIMIT]);
    unused(&mut answer[4 * LIMIT..5 * LIMIT]);
}
