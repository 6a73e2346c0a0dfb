// Prints partners and blocks for document 01's solvable models, for 002's 6 × 6 example and its two 7 × 7 examples, and for two models of full size:
// from the table through counts, leading occurrences and partners to the solving order. `stdout` has what must come out, from document 01 and an
// independent computation.
#![tactic(auto)]

ghost use Rattle.std.specs.Prelude.{◌≤◌, ◌<◌, length};
ghost use Rattle.table.specs.Model.{limit};
ghost use Rattle.counts.specs.Work.{PairableTable};

use blocks::place::{Placing, solve_order};
use counts::lead::leading;
use counts::raise::{Choice, least};
use pairing::first::first;
use shown::judged::paired;
use shown::models;
use shown::printing::{print, print_number, print_numbers};
use shown::sample::band;
use std::io;
use std::io::Write;
use table::LIMIT;
use table::number::numbers;
use table::rows::Table;

// What stands before a place: a semicolon where a block begins, a comma inside one.
fn split_before(block: &[u8], place: usize) -> &[u8]
    requires { place < length block.now }
{
    if place == 0 {
        b""
    } else if block[place - 1] == block[place] {
        b","
    } else {
        b";"
    }
}

// Kept (point 5): the bound is on how much of the two lists is shown; with a table in its place the function would seem to show the table.
fn print_blocks<W: Write>(out: &mut W, placing: Placing, n: usize) -> io::Result<()>
    requires { n ≤ limit }
{
    let Placing { order, block, .. } = placing;
    for (place, &number) in numbers(order)[..n].iter().enumerate() {
        print(out, split_before(&block, place))?;
        print_number(out, u64::from(number))?;
    }
    Ok(())
}

// A solvable model.
#[tactic(auto, using(counts::proofs::Chosen::chosen_small, counts::proofs::Chosen::chosen_full, blocks::proofs::FirstPartners::first_partnered))]
fn print_answer<W: Write>(out: &mut W, table: &Table) -> io::Result<()>
    requires { PairableTable table.now }
{
    let n = table.equations;
    let Choice {
        counts,
        tops,
        holders,
    } = least(table);
    let leading = leading(table, &counts, &tops);
    let partners = first(&leading, holders);
    print(out, b" pairs=")?;
    print_numbers(out, b",", &numbers(partners)[..n])?;
    print(out, b" blocks=")?;
    print_blocks(out, solve_order(&leading, partners), n)
}

// A model of n equations and n unknowns, from its lent table.
fn show<W: Write>(out: &mut W, name: &[u8], n: usize, bytes: &[u8]) -> io::Result<()> {
    print(out, name)?;
    if let Ok(table) = paired(n, bytes) {
        print_answer(out, &table)?;
    }
    print(out, b"\n")
}

fn lettered<W: Write>(out: &mut W) -> io::Result<()> {
    show(out, b"A", 3, &models::A)?;
    show(out, b"G", 2, &models::G)?;
    show(out, b"H", 2, &models::H)?;
    show(out, b"J", 2, &models::J)?;
    show(out, b"K", 3, &models::K)
}

fn examples<W: Write>(out: &mut W) -> io::Result<()> {
    show(
        out,
        b"002 6x6",
        6,
        b"\x00\x00\x01\x01\x00\x01\
          \x01\x01\x00\x00\x01\x01\
          \x00\x01\x01\x00\x00\x00\
          \x01\x00\x01\x00\x01\x00\
          \x00\x01\x00\x00\x00\x01\
          \x00\x00\x01\x00\x00\x01",
    )?;
    show(
        out,
        b"002 7x7 lower triangular",
        7,
        b"\x00\x00\x01\x00\x00\x01\x00\
          \x01\x01\x00\x00\x01\x01\x00\
          \x00\x00\x00\x01\x01\x01\x00\
          \x00\x01\x00\x00\x00\x00\x00\
          \x00\x00\x01\x00\x01\x00\x00\
          \x00\x01\x00\x00\x00\x01\x00\
          \x00\x01\x01\x00\x00\x00\x01",
    )?;
    show(
        out,
        b"002 7x7 with a loop",
        7,
        b"\x00\x00\x01\x01\x00\x01\x00\
          \x01\x01\x00\x00\x01\x01\x00\
          \x00\x00\x00\x01\x01\x00\x00\
          \x00\x01\x00\x00\x00\x00\x00\
          \x01\x00\x01\x00\x01\x00\x00\
          \x00\x01\x00\x00\x00\x01\x00\
          \x00\x00\x01\x00\x00\x00\x01",
    )
}

fn full_size<W: Write>(out: &mut W) -> io::Result<()> {
    // each equation has its own unknown and the next one's; where the last has the first one's too, all are one block
    show(out, b"chain 32x32", LIMIT, &band(1, 0, 0, 1))?;
    show(out, b"ring 32x32", LIMIT, &band(1, 0, 1, 1))
}

fn main(rt: HostRuntime) -> io::Result<()> {
    let out = &mut rt.stdout();
    lettered(out)?;
    examples(out)?;
    full_size(out)
}
