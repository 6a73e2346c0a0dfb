// Tables of full size, as they are lent: row by row.
ghost use Rattle.std.specs.Prelude.{◌≡◌, ◌<◌};
ghost use Rattle.table.specs.Model.{limit};
ghost use Rattle.shown.specs.Sample.{band_code, band_table};

use laws::array::tabulated;
use table::{CELLS, LIMIT};

// What stands in a band at equation place e and unknown place u.
fn band_code(next: u8, before: u8, corner: u8, last: u8, e: usize, u: usize) -> u8
    requires { (e < limit) × (u < limit) }
    ensures { result ≡ band_code next before corner last e u }
{
    if u == e + 1 {
        next
    } else if e == u + 1 {
        before
    } else if e == u {
        if e + 1 == LIMIT { last } else { 1 }
    } else if e + 1 == u + LIMIT {
        corner
    } else {
        0
    }
}

// A band: each equation has its own unknown with code 1, the next one with code `next` and the one before with code `before`;
// the last equation has its own with code `last`, and the first one, which comes next round the end, with code `corner`.
pub fn band(next: u8, before: u8, corner: u8, last: u8) -> [u8; CELLS]
    ensures { result ≡ band_table next before corner last }
{
    tabulated(CELLS, 0, |at| {
        band_code(next, before, corner, last, at / LIMIT, at % LIMIT)
    })
}
