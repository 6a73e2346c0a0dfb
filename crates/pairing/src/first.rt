// The first full pairing: equation 1 gets the lowest-numbered unknown with which all the others can still be paired, then
// equation 2 likewise, and so on.
ghost use Rattle.std.specs.Prelude.{◌≡◌, ◌-◌, ◌≤◌, ltb};
ghost use Rattle.laws.specs.Tab.{tab};
ghost use Rattle.table.specs.Model.{limit, occurs_at};
ghost use Rattle.table.specs.Number.{equation_number, unknown_number, or_zero};
ghost use Rattle.pairing.specs.Handed.{FirstIs};
ghost use Rattle.pairing.specs.Choosing.{HeldBy, AllPaired, SettledIn, TriedIn};

use crate::search::search;
use crate::{Holders, Marks};
use laws::array::tabulated;
use table::LIMIT;
use table::number::{Counted, Equation, Unknown};
use table::rows::Table;

// The lowest unknown that the equation holds.
// Kept (point 5): here and in `left::held_count` the holders come with the number of unknowns alone, and its one bound stays a clause; with a table in
// its place the function would seem to look at what occurs where.
fn held_by(unknowns: usize, e: Equation, holders: &Holders) -> Option<Unknown>
    requires { unknowns ≤ limit }
    ensures { HeldBy unknowns holders.now (equation_number e - 1) (or_zero unknown_number result) }
{
    for u in 0..unknowns {
        if holders[u] == Some(e) {
            return Some(Unknown::at(u));
        }
    }
    None
}

// The equations up to this one, as asked: a search leaves them what they hold.
fn up_to(e: Equation) -> Marks
    requires { equation_number e ≤ limit }
    ensures { result ≡ tab limit (λ i. ltb i (equation_number e)) }
{
    tabulated(e.place() + 1, false, |_| true)
}

// Kept (point 5): from here on a table and holders go together, with `AllPaired` or `SettledIn`. `first` (docs/PROMISES.md) takes the two, and each turn makes
// new holders of the same table, so a type of both would be made anew at each turn.

// The pairing in which the equation has the unknown while those before it keep theirs, where all the others can still be paired.
fn trial(table: &Table, e: Equation, u: Unknown, holders: &Holders) -> Option<Holders>
    requires { (equation_number e ≤ table.now.equations) × (unknown_number u ≤ table.now.unknowns) × AllPaired table.now holders.now }
    ensures { TriedIn table.now (equation_number e - 1) (unknown_number u - 1) holders.now result }
{
    if !table.occurs(e, u) {
        return None;
    }
    let holder = holders[u.place()].unwrap();
    if holder <= e {
        // Its own already, or one that stands before it has it.
        return (holder == e).then_some(*holders);
    }
    let own = held_by(table.unknowns, e, holders).unwrap();
    let mut given = *holders;
    given[own.place()] = None;
    given[u.place()] = Some(e);
    match search(table, holder, given, up_to(e)) {
        Ok(gain) => Some(gain.holders),
        Err(_) => None,
    }
}

// The pairing in which the equation has the first unknown that it can have.
fn settled(table: &Table, e: Equation, holders: &Holders) -> Holders
    requires { (equation_number e ≤ table.now.equations) × SettledIn table.now holders.now (equation_number e - 1) }
    ensures { SettledIn table.now result (equation_number e) }
{
    for u in 0..table.unknowns {
        if let Some(tried) = trial(table, e, Unknown::at(u), holders) {
            return tried;
        }
    }
    *holders
}

// The pairing in which every equation in turn has the first unknown that it can have.
fn all_settled(table: &Table, holders: Holders) -> Holders
    requires { AllPaired table.now holders }
    ensures { SettledIn table.now result table.now.equations }
{
    let mut holders = holders;
    for e in 0..table.equations {
        holders = settled(table, Equation::at(e), &holders);
    }
    holders
}

// The partners: the unknown of each equation in the first full pairing, from any full pairing; none beyond the last equation.
pub fn first(table: &Table, holders: Holders) -> [Option<Unknown>; LIMIT]
    requires { AllPaired table.now holders }
    ensures { FirstIs table.now.equations (occurs_at table.now.rows) result }
{
    let settled = all_settled(table, holders);
    let mut partners = [None; LIMIT];
    for e in 0..table.equations {
        partners[e] = held_by(table.unknowns, Equation::at(e), &settled);
    }
    partners
}
