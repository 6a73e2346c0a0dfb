// Prints, for document 01's models, a chain whose counts go up in threes, and 002's pendulum: counts, tops, index, freedom, and the table of leading occurrences,
// or the rank of a model that is singular. `stdout` has what must come out, from document 01 and an independent computation.
#![tactic(auto)]

ghost use Rattle.counts.specs.Work.{PairableTable};

use counts::figures::{freedom, index};
use counts::lead::leading;
use counts::raise::{Choice, least};
use shown::judged::{Unpaired, paired};
use shown::models;
use shown::printing::{print, print_figure, print_line};
use shown::sample::band;
use std::io;
use std::io::Write;
use table::LIMIT;
use table::rows::Table;

// One row to a line.
fn print_rows<W: Write>(out: &mut W, table: &Table) -> io::Result<()> {
    for row in &table.rows[..table.equations] {
        print_line(out, b"", b",", &row[..table.unknowns])?;
    }
    Ok(())
}

// A solvable model.
#[tactic(auto, using(counts::proofs::Chosen::chosen_small, counts::proofs::Chosen::freedom_asks))]
fn print_answer<W: Write>(out: &mut W, table: &Table) -> io::Result<()>
    requires { PairableTable table.now }
{
    let n = table.equations;
    let Choice { counts, tops, .. } = least(table);
    print_line(out, b"counts=", b",", &counts[..n])?;
    print_line(out, b"tops=", b",", &tops[..n])?;
    print_figure(out, b"index=", u64::from(index(n, &counts)))?;
    print_figure(out, b"\nfreedom=", u64::from(freedom(n, &counts, &tops)))?;
    print(out, b"\n")?;
    print_rows(out, &leading(table, &counts, &tops))
}

// A model of n equations and n unknowns, from its lent table.
fn show<W: Write>(out: &mut W, name: &[u8], n: usize, bytes: &[u8]) -> io::Result<()> {
    print(out, name)?;
    print(out, b"\n")?;
    match paired(n, bytes) {
        Ok(table) => print_answer(out, &table),
        Err(Unpaired::Singular(rank)) => {
            print_figure(out, b"singular rank=", u64::from(rank))?;
            print(out, b"\n")
        }
        Err(Unpaired::Misshapen) => Ok(()),
    }
}

fn main(rt: HostRuntime) -> io::Result<()> {
    let out = &mut rt.stdout();
    show(out, b"A", 3, &models::A)?;
    show(out, b"C", 3, &models::C)?;
    show(out, b"D", 1, &models::D)?;
    show(out, b"G", 2, &models::G)?;
    show(out, b"H", 2, &models::H)?;
    show(out, b"J", 2, &models::J)?;
    show(out, b"K", 3, &models::K)?;
    show(
        out,
        b"pendulum",
        5,
        b"\x02\x00\x01\x00\x00\
          \x00\x02\x00\x01\x00\
          \x01\x00\x02\x00\x01\
          \x00\x01\x00\x02\x01\
          \x01\x01\x00\x00\x00",
    )?;
    // each equation but the first has the unknown before its own at order 3
    show(out, b"chain", LIMIT, &band(0, 4, 0, 1))
}
