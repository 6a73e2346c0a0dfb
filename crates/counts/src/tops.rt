// The tops that belong to counts: for each unknown the largest order + count over its occurrences.
ghost use Rattle.std.specs.Prelude.{◌≡◌, not, ◌+◌, ◌-◌, ◌*◌, ◌≤◌, eqb};
ghost use Rattle.laws.specs.Tab.{pick};
ghost use Rattle.table.specs.Model.{limit, top_code};
ghost use Rattle.table.specs.Number.{unknown_number};
ghost use Rattle.counts.specs.Work.{top_order, Small, high_at, tops_of};

use laws::array::tabulated;
use table::Row;
use table::number::{Counted, Unknown};
use table::rows::Table;

// Order + count at an occurrence, and none where the unknown does not occur: code 0 is no order at all.
pub(crate) fn lifted(code: u8, count: u8) -> Option<u8>
    requires { (code ≤ top_code) × (count ≤ limit * top_order) }
    ensures { result ≡ pick (not (eqb code 0)) (Some (code - 1 + count)) None }
{
    code.checked_sub(1).map(|order| order + count)
}

// Kept (point 5): here, in `tops`, `lead_row` and `leading` a table and counts go together, with `Small`, and in `lifted` with the bound on one count. A type of
// both is no plainer: the counts change at each turn of `least`, so it would be made anew for two calls, and each body would take it apart.

// The largest order + count over the occurrences of one unknown, looked up by place, for most of the raising's time goes here.
fn top(table: &Table, u: Unknown, counts: &Row) -> u8
    requires { Small table.now.equations table.now.rows counts.now × (unknown_number u ≤ table.now.equations) }
    ensures { result ≡ high_at table.now.equations table.now.rows counts.now (unknown_number u - 1) }
{
    let mut most = 0;
    for e in 0..table.equations {
        let here = lifted(table.rows[e][u.place()], counts[e]);
        most = here.unwrap_or(0).max(most);
    }
    most
}

// The tops of as many unknowns as there are equations, which in a square table are all, and 0 beyond.
pub fn tops(table: &Table, counts: &Row) -> Row
    requires { Small table.now.equations table.now.rows counts.now }
    ensures { result ≡ tops_of table.now.equations table.now.rows counts.now }
{
    tabulated(table.equations, 0, |u| top(table, Unknown::at(u), counts))
}
