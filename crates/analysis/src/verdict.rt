// Solvable or singular.
ghost use Rattle.std.specs.Prelude.{◌≡◌, ◌&&◌, ◌≤◌, eqb, length};
ghost use Rattle.table.specs.Model.{occurs_at, order_at, Bounded};
ghost use Rattle.analysis.specs.Outcome.{answer_bytes, Verdict};

use crate::number::pack;
use crate::singular::write;
use crate::solvable::solvable;
use pairing::left::{Left, left_over};
use table::rows::Table;

// Solvable means E = U = rank.
fn all_paired(equations: usize, unknowns: usize, rank: u8) -> bool
    ensures { result ≡ (eqb equations unknowns && eqb rank equations) }
{
    equations == unknowns && usize::from(rank) == equations
}

// The verdict on a table that was judged. Counts are looked for only where all are paired: with a surplus equation the raising would never end.
pub fn verdict(table: &Table, answer: &mut [u8]) -> u64
    requires { Bounded table.now.equations table.now.unknowns table.now.rows × (answer_bytes ≤ length answer.old) }
    ensures { Verdict table.now.equations table.now.unknowns (occurs_at table.now.rows) (order_at table.now.rows) answer.old result answer.new }
{
    let Left {
        rank,
        surplus,
        unfixed,
    } = left_over(table);
    if all_paired(table.equations, table.unknowns, rank) {
        return solvable(table, answer);
    }
    write(
        answer,
        &surplus[..table.equations],
        &unfixed[..table.unknowns],
    );
    pack(10, 0, rank, 0, 0, 0)
}
