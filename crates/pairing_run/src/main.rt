// Prints rank, surplus and unfixed for document 01's singular models and for tables with empty rows and columns, with more equations than
// unknowns and the other way round, and of full size. `stdout` has what must come out, from document 01 and an independent computation.
#![tactic(auto)]

ghost use Rattle.std.specs.Prelude.{◌≤◌, length};
ghost use Rattle.table.specs.Model.{limit};

use pairing::left::{Left, left_over};
use shown::models;
use shown::printing::{print, print_figure, print_next};
use shown::sample::band;
use std::io;
use std::io::Write;
use table::judge::well_sized;
use table::rows::Table;
use table::{CELLS, LIMIT};

// The numbers of what is marked, by commas, or none.
// Kept (point 5): the bound is on a slice's length; no value has it beside it.
fn print_marked<W: Write>(out: &mut W, label: &[u8], marks: &[bool]) -> io::Result<()>
    requires { length marks.now ≤ limit }
{
    print(out, label)?;
    if !marks.contains(&true) {
        return print(out, b"none");
    }
    for (at, i) in (0..marks.len()).filter(|&i| marks[i]).enumerate() {
        // Kept (point 4): `as` is proved to lose nothing; `try_from` would hand back an error that cannot come.
        print_next(out, b",", at == 0, (i + 1) as u8)?;
    }
    Ok(())
}

fn print_left<W: Write>(out: &mut W, table: &Table) -> io::Result<()> {
    let Left {
        rank,
        surplus,
        unfixed,
    } = left_over(table);
    print_figure(out, b" rank=", u64::from(rank))?;
    print_marked(out, b" surplus=", &surplus[..table.equations])?;
    print_marked(out, b" unfixed=", &unfixed[..table.unknowns])
}

fn show<W: Write>(
    out: &mut W,
    name: &[u8],
    equations: usize,
    unknowns: usize,
    bytes: &[u8],
) -> io::Result<()> {
    print(out, name)?;
    if well_sized(equations, unknowns, bytes) {
        print_left(out, &Table::filled(equations, unknowns, bytes))?;
    } else {
        print(out, b" size")?;
    }
    print(out, b"\n")
}

fn main(rt: HostRuntime) -> io::Result<()> {
    let out = &mut rt.stdout();
    show(out, b"A", 3, 3, &models::A)?;
    show(out, b"B", 2, 3, &models::B)?;
    show(out, b"C", 3, 3, &models::C)?;
    show(out, b"F", 1, 1, &models::F)?;
    show(out, b"zeros 3x3", 3, 3, &[0, 0, 0, 0, 0, 0, 0, 0, 0])?;
    show(out, b"more equations 4x2", 4, 2, &[1, 0, 1, 1, 0, 0, 0, 4])?;
    show(out, b"more unknowns 2x4", 2, 4, &[1, 1, 0, 0, 0, 1, 0, 4])?;
    show(
        out,
        b"two parts 4x4",
        4,
        4,
        &[1, 0, 0, 0, 1, 0, 0, 0, 0, 1, 1, 1, 0, 0, 1, 1],
    )?;
    show(
        out,
        b"long way 4x4",
        4,
        4,
        &[1, 1, 0, 0, 1, 0, 0, 0, 0, 1, 0, 0, 0, 0, 1, 1],
    )?;
    // each equation has its own unknown and the next one: solvable, and singular without the last one's own
    show(out, b"ladder 32x32", LIMIT, LIMIT, &band(2, 0, 0, 1))?;
    show(
        out,
        b"ladder without its end 32x32",
        LIMIT,
        LIMIT,
        &band(2, 0, 0, 0),
    )?;
    show(out, b"full 32x32", LIMIT, LIMIT, &[4; CELLS])?;
    show(out, b"short table", 2, 2, &[1, 1, 1])?;
    show(out, b"too many", LIMIT + 1, 1, &[1; LIMIT + 1])
}
