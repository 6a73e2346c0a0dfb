// A lent table judged, where all its equations and unknowns can be paired.
ghost use Rattle.shown.specs.Judged.{IsPaired};

use pairing::left::left_over;
use table::judge::{first_above, well_sized};
use table::rows::Table;

// Why there is no pairing of all.
#[derive(Clone, Copy)]
pub enum Unpaired {
    // The bytes are no table of so many equations and unknowns, or a code is above 4.
    Misshapen,
    // A largest pairing has fewer: the rank.
    Singular(u8),
}

// The table of a model of n equations and n unknowns.
pub fn paired(n: usize, bytes: &[u8]) -> Result<Table, Unpaired>
    ensures { IsPaired n bytes.now result }
{
    if !well_sized(n, n, bytes) || first_above(bytes) != bytes.len() {
        return Err(Unpaired::Misshapen);
    }
    let table = Table::filled(n, n, bytes);
    let rank = left_over(&table).rank;
    if usize::from(rank) == n {
        Ok(table)
    } else {
        Err(Unpaired::Singular(rank))
    }
}
