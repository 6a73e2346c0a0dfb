// The table held as rows of codes: filled from the lent bytes, read by equation and unknown, and turned.
ghost use Rattle.std.specs.Prelude.{◌≡◌, ◌+◌, ◌-◌, ◌*◌, ◌<◌, ◌≤◌, length, get_or, ltb, [], true};
ghost use Rattle.laws.specs.Tab.{tab, pick};
ghost use Rattle.table.specs.Model.{limit, code_at, occurs_at, rows_of, turned, well_sized};
ghost use Rattle.table.specs.Number.{equation_number, unknown_number};

use crate::number::{Counted, Equation, Unknown};
use crate::{LIMIT, Row, Rows};
use laws::array::tabulated;

// E equations and U unknowns, and what occurs where, as codes. Those that are made here have 0 beyond the last equation and unknown.
#[derive(Clone, Copy)]
pub struct Table {
    pub equations: usize,
    pub unknowns: usize,
    pub rows: Rows,
    pub ghost few: { (equations ≤ limit) × (unknowns ≤ limit) },
}

// One row: byte e × U + u of the lent table at place u, and 0 beyond the last unknown.
// Kept (point 5): `unknowns ≤ limit` stays a clause, for there is no `Table` yet that could say it: its rows are made here.
fn lent_row(unknowns: usize, table: &[u8], at: usize) -> Row
    requires { (unknowns ≤ limit) × (at + unknowns ≤ length table.now) }
    ensures { result ≡ tab limit (λ u. pick (ltb u unknowns) (get_or table.now (at + u) 0) 0) }
{
    tabulated(unknowns, 0, |u| table[at + u])
}

impl Table {
    // The table as rows of codes, from bytes that were judged well sized.
    pub fn filled(equations: usize, unknowns: usize, table: &[u8]) -> Table
        requires { well_sized equations unknowns table.now ≡ true }
        ensures { (result.equations ≡ equations) × (result.unknowns ≡ unknowns) × (result.rows ≡ rows_of equations unknowns table.now) }
    {
        let rows = tabulated(
            equations,
            [0; LIMIT],
            |e|
                requires { (unknowns ≤ limit) × (e * unknowns + unknowns ≤ length table.now) }
                ensures { result ≡ tab limit (λ u. pick (ltb u unknowns) (get_or table.entry.now (e * unknowns + u) 0) 0) }
            { lent_row(unknowns, table, e * unknowns) },
        );
        Table {
            equations,
            unknowns,
            rows,
        }
    }

    // The code of unknown u in equation e.
    pub fn code(&self, e: Equation, u: Unknown) -> u8
        requires { (equation_number e ≤ limit) × (unknown_number u ≤ limit) }
        ensures { result ≡ code_at self.now.rows (equation_number e - 1) (unknown_number u - 1) }
    {
        self.rows[e.place()][u.place()]
    }

    // Unknown u occurs in equation e. Code 0 is no order at all: it does not occur.
    pub fn occurs(&self, e: Equation, u: Unknown) -> bool
        requires { (equation_number e ≤ limit) × (unknown_number u ≤ limit) }
        ensures { result ≡ occurs_at self.now.rows (equation_number e - 1) (unknown_number u - 1) }
    {
        self.code(e, u) != 0
    }

    // The row of an equation.
    pub fn row(&self, e: Equation) -> Row
        requires { equation_number e ≤ limit }
        ensures { result ≡ get_or self.now.rows (equation_number e - 1) [] }
    {
        self.rows[e.place()]
    }

    // The column of an unknown, as a row.
    pub fn column(&self, u: Unknown) -> Row
        requires { unknown_number u ≤ limit }
        ensures { result ≡ tab limit (λ e. code_at self.now.rows e (unknown_number u - 1)) }
    {
        let at = u.place();
        tabulated(LIMIT, 0, |e| self.rows[e][at])
    }

    // The table with equations and unknowns exchanged.
    pub fn transposed(&self) -> Table
        ensures { (result.equations ≡ self.now.unknowns) × (result.unknowns ≡ self.now.equations) × (result.rows ≡ turned self.now.rows) }
    {
        let rows = tabulated(
            LIMIT,
            [0; LIMIT],
            |u|
                requires { u < limit }
                ensures { result ≡ tab limit (λ e. code_at self.entry.now.rows e u) }
            { self.column(Unknown::at(u)) },
        );
        Table {
            equations: self.unknowns,
            unknowns: self.equations,
            rows,
        }
    }
}
