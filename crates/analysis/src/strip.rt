// The writers of the strips. Each is lent its own stretch of the answer buffer and fills it wholly: what it has, and then unused places.
ghost use Rattle.std.specs.Prelude.{◌≡◌, [], map, suc, ◌≤◌, length};
ghost use Rattle.laws.specs.Marks.{marked};
ghost use Rattle.table.specs.Model.{limit};
ghost use Rattle.pairing.specs.Members.{members};
ghost use Rattle.analysis.specs.Outcome.{strip};

use table::LIMIT;

// What an unused place of a strip holds.
// Kept (point 1): a number for none, for document 01 fills the strips so.
pub const UNUSED: u8 = 255;

// The bytes of an answer: five strips.
pub const ANSWER: usize = 5 * LIMIT;

// A strip with nothing in it.
// Kept (point 5): that a stretch has 32 bytes stands in three contracts; it is a part of the caller's buffer (document 01), and `[u8; LIMIT]` would ask more
// of those who call `unused`, `numbers` and `listed` (docs/PROMISES.md).
#[tactic(auto, using(crate::proofs::Strips::strip_none))]
pub fn unused(stretch: &mut [u8])
    requires { length stretch.old ≡ limit }
    ensures { stretch.new ≡ strip [] }
{
    stretch.fill(UNUSED);
}

// Numbers by place: counts, tops, partners, equations in solving order, block numbers.
#[tactic(auto, using(crate::proofs::Strips::strip_over))]
pub fn numbers(stretch: &mut [u8], numbers: &[u8])
    requires { (length stretch.old ≡ limit) × (length numbers.now ≤ limit) }
    ensures { stretch.new ≡ strip numbers.now }
{
    unused(stretch);
    stretch[..numbers.len()].copy_from_slice(numbers);
}

// The numbers of those that are marked, ascending: surplus equations, unfixed unknowns.
pub fn listed(stretch: &mut [u8], marks: &[bool])
    requires { (length stretch.old ≡ limit) × (length marks.now ≤ limit) }
    ensures { stretch.new ≡ strip (map suc (members (length marks.now) (marked marks.now))) }
{
    unused(stretch);
    for (at, i) in (0..marks.len()).filter(|&i| marks[i]).enumerate() {
        // Kept (point 4): `as` is proved to lose nothing; `try_from` would hand back an error that cannot come.
        stretch[at] = (i + 1) as u8;
    }
}
