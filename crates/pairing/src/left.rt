// A largest pairing, the rank, and who may be left over: the equations that some largest pairing leaves over are surplus,
// the unknowns are unfixed. Not what one search happened to leave over, but what any largest pairing may.
ghost use Rattle.std.specs.Prelude.{◌≡◌, not, ◌≤◌, eqb};
ghost use Rattle.laws.specs.Count.{count};
ghost use Rattle.laws.specs.Marks.{marked};
ghost use Rattle.table.specs.Model.{limit, occurs_at};
ghost use Rattle.pairing.specs.Holders.{holder, held};
ghost use Rattle.pairing.specs.Certificate.{Certificate};
ghost use Rattle.pairing.specs.Handed.{LeftIs};

use crate::search::search;
use crate::{Holders, Marks};
use table::LIMIT;
use table::number::{Counted, Equation};
use table::rows::Table;

#[derive(Clone, Copy)]
struct Pairs {
    holders: Holders,
    // The equations that some largest pairing leaves over.
    over: Marks,
}

#[derive(Clone, Copy)]
pub struct Left {
    pub rank: u8,
    pub surplus: Marks,
    pub unfixed: Marks,
}

// A largest pairing. Each equation searches once; those that a failed search asked stay asked, for no later search can use them.
fn largest(table: &Table) -> Pairs
    ensures { Certificate table.now.equations table.now.unknowns (occurs_at table.now.rows) (held result.holders) (marked result.over) }
{
    let mut holders = [None; LIMIT];
    let mut over = [false; LIMIT];
    for e in 0..table.equations {
        match search(table, Equation::at(e), holders, over) {
            Ok(gain) => holders = gain.holders,
            Err(asked) => over = asked,
        }
    }
    Pairs { holders, over }
}

// How many unknowns are held.
#[tactic(auto, using(laws::proofs::Sum::count_yes, laws::proofs::Sum::count_no))]
fn held_count(unknowns: usize, holders: &Holders) -> u8
    requires { unknowns ≤ limit }
    ensures { result ≡ count unknowns (λ u. not (eqb (holder holders.now u) 0)) }
{
    let mut held = 0;
    for u in 0..unknowns {
        if holders[u].is_some() {
            held += 1;
        }
    }
    held
}

// The rank, and who may be left over. Unknowns are judged as the equations of the transposed table.
pub fn left_over(table: &Table) -> Left
    ensures { LeftIs table.now.equations table.now.unknowns (occurs_at table.now.rows) result.rank result.surplus result.unfixed }
{
    let pairs = largest(table);
    let other = largest(&table.transposed());
    let surplus = pairs.over;
    let unfixed = other.over;
    Left {
        rank: held_count(table.unknowns, &pairs.holders),
        surplus,
        unfixed,
    }
}
