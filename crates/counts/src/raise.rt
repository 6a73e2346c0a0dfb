// The least counts of a model that has a pairing of all its equations. Each equation in turn searches over the leading occurrences; as long as it
// finds nothing, all that were asked are differentiated once more. Some pairing of all equations is what makes the raising end.
ghost use Rattle.std.specs.Prelude.{◌≡◌, MatchResult, ℕ, ◌+◌, ◌*◌, ◌<◌, ◌≤◌};
ghost use Rattle.table.specs.Model.{limit, occurs_at};
ghost use Rattle.pairing.specs.Holders.{held};
ghost use Rattle.counts.specs.Work.{top_order, PairableTable, Chosen};
ghost use Rattle.laws.specs.Tab.{number_at};
ghost use Rattle.counts.specs.Kept.{Paired, Went, raised_by};

use crate::lead::leading;
use crate::tops::tops;
use laws::array::tabulated;
use pairing::search::search;
use pairing::{Holders, Marks};
use table::number::{Counted, Equation};
use table::rows::Table;
use table::{LIMIT, Row};

// The search of the equation at place `paired` found nothing: those before it are paired, who holds each unknown, and whom it asked in vain.
#[derive(Clone, Copy)]
struct Stopped {
    paired: usize,
    holders: Holders,
    asked: Marks,
}

// The least counts by equation, the tops by unknown, and a full pairing over the leading occurrences, as holders.
#[derive(Clone, Copy)]
pub struct Choice {
    // Kept (point 6): parallel arrays; counts and tops are strips of the answer, holders go on to `first`, and `Chosen` speaks of each.
    pub counts: Row,
    pub tops: Row,
    pub holders: Holders,
}

// One more for each that was asked.
// Kept (point 5): `n ≤ limit` stays a clause; with a table in its place the function would seem to look at more than how many equations there are.
fn raised(n: usize, counts: &Row, asked: &Marks) -> Row
    requires { (n ≤ limit) × ((e : ℕ) → e < n → number_at counts.now e ≤ limit * top_order) }
    ensures { result ≡ raised_by n counts.now asked.now }
{
    tabulated(n, 0, |e| counts[e] + u8::from(asked[e]))
}

// The equations from one on are paired in turn over the leading occurrences: all of them, or as far as that goes.
fn pair_on(leading: &Table, from: usize, holders: Holders) -> Result<Holders, Stopped>
    requires { (leading.now.equations ≡ leading.now.unknowns) × (from ≤ leading.now.equations)
        × Paired leading.now.equations (occurs_at leading.now.rows) from (held holders) }
    ensures { MatchResult result (λ all. Paired leading.now.equations (occurs_at leading.now.rows) leading.now.equations (held all))
        (λ stopped. (stopped.paired < leading.now.equations) × Went leading.now.equations (occurs_at leading.now.rows) stopped.paired stopped.holders stopped.asked) }
{
    let mut holders = holders;
    for paired in from..leading.equations {
        match search(leading, Equation::at(paired), holders, [false; LIMIT]) {
            Ok(gain) => holders = gain.holders,
            Err(asked) => {
                return Err(Stopped {
                    paired,
                    holders,
                    asked,
                });
            }
        }
    }
    Ok(holders)
}

// The answer of document 01 for a solvable model: the fit choice whose every count is no larger than in any other fit choice.
// Each raise brings the tops' sum nearer to the counts' sum, and it never falls below that.
// Kept (point 5): that a table can be paired stays a clause, here and of those who call this: no body reads it, and docs/PROMISES.md names `least` with a
// table, where a type of its own would ask callers for more.
pub fn least(table: &Table) -> Choice
    requires { PairableTable table.now }
    ensures { Chosen table.now.equations table.now.rows result.counts result.tops result.holders }
{
    let mut counts = [0; LIMIT];
    let mut holders = [None; LIMIT];
    let mut paired = 0;
    loop {
        let tops = tops(table, &counts);
        let leading = leading(table, &counts, &tops);
        match pair_on(&leading, paired, holders) {
            Ok(holders) => {
                return Choice {
                    counts,
                    tops,
                    holders,
                };
            }
            Err(stopped) => {
                counts = raised(table.equations, &counts, &stopped.asked);
                paired = stopped.paired;
                holders = stopped.holders;
            }
        }
    }
}
