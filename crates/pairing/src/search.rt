// The search that enlarges a pairing (002, MATCH-EQUATION): an equation takes a free unknown, or asks the holder of a
// taken one to move on, and that one asks in turn. Each equation is asked at most once, so the asking ends.
ghost use Rattle.std.specs.Prelude.{ℕ, ◌-◌, ◌≤◌};
ghost use Rattle.table.specs.Model.{limit, occurs_at};
ghost use Rattle.table.specs.Number.{equation_number, unknown_number, or_zero};
ghost use Rattle.pairing.specs.Holders.{Asking, Searched};
ghost use Rattle.pairing.specs.Looking.{AllHeld, FreeIn, NextIn};

use crate::{Holders, Marks};
use table::number::{Counted, Equation, Unknown};
use table::rows::Table;

// What the asker got, and who holds each unknown afterwards.
#[derive(Clone, Copy)]
pub struct Gain {
    pub got: Unknown,
    pub holders: Holders,
}

// The lowest unknown of the asker that nobody holds. Looked up by place, here and in `next_held`: to make each unknown's number first would take longer than the look.
fn free_unknown(table: &Table, asker: Equation, holders: &Holders) -> Option<Unknown>
    requires { equation_number asker ≤ limit }
    ensures { FreeIn table.now.unknowns (occurs_at table.now.rows) (equation_number asker - 1) holders.now (or_zero unknown_number result) }
{
    for u in 0..table.unknowns {
        if table.rows[asker.place()][u] != 0 && holders[u].is_none() {
            return Some(Unknown::at(u));
        }
    }
    None
}

// The lowest unknown of the asker, from a place on, whose holder was not asked yet.
fn next_held(
    table: &Table,
    asker: Equation,
    from: usize,
    holders: &Holders,
    asked: &Marks,
) -> Option<Unknown>
    requires { (equation_number asker ≤ limit) × AllHeld table.now.unknowns (occurs_at table.now.rows) (equation_number asker - 1) holders.now }
    ensures { NextIn table.now.unknowns (occurs_at table.now.rows) (equation_number asker - 1) from holders.now asked.now (or_zero unknown_number result) }
{
    for u in from..table.unknowns {
        if table.rows[asker.place()][u] != 0 && !asked[holders[u].unwrap().place()] {
            return Some(Unknown::at(u));
        }
    }
    None
}

// One search. It calls itself on the present holder of an unknown that it needs; what falls is the number of those not yet asked.
// Where it finds nothing it hands back who was asked, those asked before included.
pub fn search(table: &Table, asker: Equation, holders: Holders, asked: Marks) -> Result<Gain, Marks>
    requires { Asking limit table.now.unknowns (occurs_at table.now.rows) (equation_number asker - 1) asked holders }
    ensures { (m : ℕ) → Asking m table.now.unknowns (occurs_at table.now.rows) (equation_number asker - 1) asked holders
        → Searched m table.now.unknowns (occurs_at table.now.rows) (equation_number asker - 1) asked holders result }
{
    let mut holders = holders;
    let mut asked = asked;
    asked[asker.place()] = true;
    if let Some(got) = free_unknown(table, asker, &holders) {
        holders[got.place()] = Some(asker);
        return Ok(Gain { got, holders });
    }
    let mut wanted = next_held(table, asker, 0, &holders, &asked);
    while let Some(got) = wanted {
        let place = got.place();
        let holder = holders[place].unwrap();
        // The asker has it while its holder looks for another; if there is none, the holder has it back.
        holders[place] = Some(asker);
        match search(table, holder, holders, asked) {
            Ok(moved) => {
                let holders = moved.holders;
                return Ok(Gain { got, holders });
            }
            Err(more) => asked = more,
        }
        holders[place] = Some(holder);
        wanted = next_held(table, asker, place + 1, &holders, &asked);
    }
    Err(asked)
}
