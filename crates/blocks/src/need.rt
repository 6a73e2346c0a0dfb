// Which equation needs which: f needs g when they differ and g's partner has a leading occurrence in f.
ghost use Rattle.std.specs.Prelude.{◌≡◌, not, ◌&&◌, ◌-◌, ◌<◌, ◌≤◌, eqb};
ghost use Rattle.laws.specs.Count.{bit};
ghost use Rattle.laws.specs.Tab.{tab};
ghost use Rattle.table.specs.Model.{limit, Numbered, occurs_at, square};
ghost use Rattle.table.specs.Number.{unknown_number};
ghost use Rattle.blocks.specs.Blocks.{needs_at};
ghost use Rattle.blocks.specs.Handed.{partner_at, Partnered};
ghost use Rattle.pairing.specs.Handed.{partner_of};

use crate::relation::Relation;
use laws::array::tabulated;
use table::number::{Counted, Equation, Unknown};
use table::rows::Table;
use table::{LIMIT, Row};

// Whether the equation at place f needs the one at place g, which has this partner: 1 or 0.
fn need(leading: &Table, f: usize, g: usize, partner: Unknown) -> u8
    requires { (f < limit) × (unknown_number partner ≤ limit) }
    ensures { result ≡ bit (not (eqb f g) && occurs_at leading.now.rows f (unknown_number partner - 1)) }
{
    u8::from(f != g && leading.occurs(Equation::at(f), partner))
}

// What the equation at place f needs: 1 at those, 0 elsewhere.
fn need_row(leading: &Table, partners: [Option<Unknown>; LIMIT], f: usize) -> Row
    requires { Partnered leading.now.equations partners × (f < leading.now.equations) }
    ensures { result ≡ tab limit (λ g. bit (needs_at leading.now.equations (occurs_at leading.now.rows) (partner_at partners) f g)) }
{
    tabulated(
        leading.equations,
        0,
        |g| -> u8
            requires { (f < limit) × (g < limit) × Numbered (partner_of partners g) }
            ensures { result ≡ bit (not (eqb f g) && occurs_at leading.entry.now.rows f (partner_at partners g)) }
        { need(leading, f, g, partners[g].unwrap()) },
    )
}

// Which equation needs which.
// Kept (point 5): leading occurrences and partners go together, with `Partnered`, from `solve_order` on, which docs/PROMISES.md names with these two; a type of
// both would be made there for one call and taken apart in `need_row`.
// Kept (point 1): codes 1 and 0 in place of bools, for `place` (docs/PROMISES.md) takes rows of codes, and `Bits` and `ReachTable` speak of such rows.
pub fn needs(leading: &Table, partners: [Option<Unknown>; LIMIT]) -> Relation
    requires { Partnered leading.now.equations partners }
    ensures { (result.equations ≡ leading.now.equations)
        × (result.rows ≡ square (λ f g. bit (needs_at leading.now.equations (occurs_at leading.now.rows) (partner_at partners) f g))) }
{
    let rows = tabulated(
        leading.equations,
        [0; LIMIT],
        |f|
            requires { Partnered leading.now.equations partners × (f < leading.now.equations) }
            ensures { result ≡ tab limit (λ g. bit (needs_at leading.entry.now.equations (occurs_at leading.entry.now.rows) (partner_at partners) f g)) }
        { need_row(leading, partners, f) },
    );
    Relation {
        equations: leading.equations,
        rows,
    }
}
