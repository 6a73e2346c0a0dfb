// The table of leading occurrences: code 1 where order + count is the unknown's top, 0 elsewhere.
ghost use Rattle.std.specs.Prelude.{◌≡◌, ◌-◌, ◌<◌, ◌≤◌, ltb};
ghost use Rattle.laws.specs.Count.{bit};
ghost use Rattle.laws.specs.Tab.{tab, pick};
ghost use Rattle.table.specs.Model.{limit};
ghost use Rattle.table.specs.Number.{equation_number};
ghost use Rattle.counts.specs.Work.{Small, leading_at, leading_rows};

use crate::tops::lifted;
use laws::array::tabulated;
use table::number::{Counted, Equation};
use table::rows::Table;
use table::{LIMIT, Row};

// The row of one equation. An occurrence is leading when its top is order + count; where the unknown does not occur nothing is.
fn lead_row(table: &Table, e: Equation, counts: &Row, tops: &Row) -> Row
    requires { Small table.now.equations table.now.rows counts.now × (equation_number e ≤ table.now.equations) }
    ensures { result ≡ tab limit (λ u. pick (ltb u table.now.equations) (bit (leading_at table.now.rows counts.now tops.now (equation_number e - 1) u)) 0) }
{
    let count = counts[e.place()];
    let codes = table.row(e);
    tabulated(
        table.equations,
        0,
        |u| u8::from(lifted(codes[u], count) == Some(tops[u])),
    )
}

// The table of leading occurrences, for the crates that look at those alone; in a square table of all of them.
pub fn leading(table: &Table, counts: &Row, tops: &Row) -> Table
    requires { Small table.now.equations table.now.rows counts.now }
    ensures { (result.equations ≡ table.now.equations) × (result.unknowns ≡ table.now.unknowns)
        × (result.rows ≡ leading_rows table.now.equations table.now.rows counts.now tops.now) }
{
    let rows = tabulated(
        table.equations,
        [0; LIMIT],
        |e|
            requires { Small table.now.equations table.now.rows counts.now × (e < table.now.equations) }
            ensures { result ≡ tab limit (λ u. pick (ltb u table.entry.now.equations) (bit (leading_at table.entry.now.rows counts.entry.now tops.entry.now e u)) 0) }
        { lead_row(table, Equation::at(e), counts, tops) },
    );
    Table {
        equations: table.equations,
        unknowns: table.unknowns,
        rows,
    }
}
