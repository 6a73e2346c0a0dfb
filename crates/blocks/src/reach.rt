// What each equation reaches through needs: ways through equation 1, then through 1 and 2, and so on.
ghost use Rattle.std.specs.Prelude.{◌≡◌, ◌<◌, eqb, get_or};
ghost use Rattle.laws.specs.Count.{bit};
ghost use Rattle.laws.specs.Tab.{tab, pick};
ghost use Rattle.table.specs.Model.{limit, occurs_at, square};
ghost use Rattle.blocks.specs.Handed.{Bits, ReachTable, Within};
ghost use Rattle.blocks.specs.Steps.{at_once, either, through_code};

use crate::relation::Relation;
use laws::array::tabulated;
use table::{LIMIT, Row, Rows};

// Each equation reaches itself, and at once what it needs.
#[tactic(auto, using(laws::proofs::Tab::fill_start, crate::proofs::Tables::own_next, crate::proofs::Tables::own_end))]
fn at_once(needs: &Relation) -> Rows
    requires { Bits needs.now.rows }
    ensures { result ≡ square (λ e g. bit (at_once needs.now.equations (occurs_at needs.now.rows) e g)) }
{
    let mut rows = needs.rows;
    for e in 0..needs.equations {
        rows[e][e] = 1;
    }
    rows
}

// 1 where the second code says so, else the first.
fn either_of(code: u8, other: u8) -> u8
    ensures { result ≡ either code other }
{
    if other == 0 { code } else { 1 }
}

// What one of two equations reaches.
fn joined(row: &Row, other: &Row) -> Row
    ensures { result ≡ tab limit (λ g. either (get_or row.now g 0) (get_or other.now g 0)) }
{
    tabulated(LIMIT, 0, |g| either_of(row[g], other[g]))
}

// What an equation reaches besides if the way may lead through the equation at place k, whose row is the second.
fn row_through(row: &Row, other: &Row, k: usize) -> Row
    requires { k < limit }
    ensures { result ≡ tab limit (λ g. pick (eqb (get_or row.now k 0) 0) (get_or row.now g 0) (either (get_or row.now g 0) (get_or other.now g 0))) }
{
    if row[k] == 0 {
        *row
    } else {
        joined(row, other)
    }
}

// The same for every equation.
fn through(reach: &Rows, k: usize) -> Rows
    requires { k < limit }
    ensures { result ≡ square (through_code reach.now k) }
{
    tabulated(
        LIMIT,
        [0; LIMIT],
        |e|
            requires { (e < limit) × (k < limit) }
            ensures { result ≡ tab limit (through_code reach.entry.now k e) }
        { row_through(&reach[e], &reach[k], k) },
    )
}

// What each equation reaches.
pub fn reach(needs: &Relation) -> Relation
    requires { Bits needs.now.rows × Within needs.now.equations (occurs_at needs.now.rows) }
    ensures { (result.equations ≡ needs.now.equations) × ReachTable needs.now.equations (occurs_at needs.now.rows) result.rows }
{
    let mut rows = at_once(needs);
    for k in 0..needs.equations {
        rows = through(&rows, k);
    }
    Relation {
        equations: needs.equations,
        rows,
    }
}
