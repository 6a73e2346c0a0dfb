// Calls the entry of the analysis and prints the six numbers and the answer buffer: for document 01's models, at its limits, and for each refusal.
// The buffer holds 7 before each call, so that what is not written shows. `stdout` has what must come out, by an independent program.
#![tactic(auto)]

ghost use Rattle.std.specs.Prelude.{◌+◌, ◌*◌, ◌≤◌};
ghost use Rattle.table.specs.Model.{limit};

use analysis::mudorder_analyse;
use analysis::strip::ANSWER;
use shown::models;
use shown::printing::{print, print_figure, print_line};
use shown::sample::band;
use std::io;
use std::io::Write;
use table::{CELLS, LIMIT};

// A buffer that is longer than the answer.
const ROOM: usize = ANSWER + 8;

// The six numbers, and what stands above them.
fn print_reply<W: Write>(out: &mut W, number: u64) -> io::Result<()> {
    let [code, low, high, rank, index, freedom, blocks, rest] = number.to_le_bytes();
    print_figure(out, b" code=", u64::from(code))?;
    print_figure(out, b" place=", u64::from(u16::from_le_bytes([low, high])))?;
    print_figure(out, b" rank=", u64::from(rank))?;
    print_figure(out, b" index=", u64::from(index))?;
    print_figure(out, b" freedom=", u64::from(freedom))?;
    print_figure(out, b" blocks=", u64::from(blocks))?;
    print_figure(out, b" rest=", u64::from(rest))?;
    print(out, b"\n")
}

// The five strips, and what stands behind them.
fn print_answer<W: Write>(out: &mut W, answer: &[u8; ROOM]) -> io::Result<()> {
    for strip in answer.chunks(LIMIT) {
        print_line(out, b"", b" ", strip)?;
    }
    Ok(())
}

// A model, with a buffer of its own length.
fn show_room<W: Write>(
    out: &mut W,
    name: &[u8],
    equations: usize,
    unknowns: usize,
    table: &[u8],
    room: usize,
) -> io::Result<()>
    requires { room ≤ 5 * limit + 8 }
{
    let mut answer = [7; ROOM];
    print(out, name)?;
    let number = mudorder_analyse(equations, unknowns, table, &mut answer[..room]);
    print_reply(out, number)?;
    print_answer(out, &answer)
}

// A model, with a buffer that is longer than the answer.
fn show<W: Write>(
    out: &mut W,
    name: &[u8],
    equations: usize,
    unknowns: usize,
    table: &[u8],
) -> io::Result<()> {
    show_room(out, name, equations, unknowns, table, ROOM)
}

fn lettered<W: Write>(out: &mut W) -> io::Result<()> {
    show(out, b"A", 3, 3, &models::A)?;
    show(out, b"B", 2, 3, &models::B)?;
    show(out, b"C", 3, 3, &models::C)?;
    show(out, b"D", 1, 1, &models::D)?;
    show(out, b"F", 1, 1, &models::F)?;
    show(out, b"G", 2, 2, &models::G)?;
    show(out, b"H", 2, 2, &models::H)?;
    show(out, b"J", 2, 2, &models::J)?;
    show(out, b"K", 3, 3, &models::K)
}

fn limits<W: Write>(out: &mut W) -> io::Result<()> {
    // each equation has its own unknown at order 0 and the next one at order 3: the counts go up in threes
    show(out, b"32 in a chain", LIMIT, LIMIT, &band(4, 0, 0, 1))?;
    show(
        out,
        b"32 with an end missing",
        LIMIT,
        LIMIT,
        &band(4, 0, 0, 0),
    )?;
    show(out, b"32 full", LIMIT, LIMIT, &[4; CELLS])?;
    show(out, b"32 by 1", LIMIT, 1, &[1; LIMIT])?;
    show(out, b"1 by 32", 1, LIMIT, &[4; LIMIT])?;
    show_room(out, b"160 bytes", 1, 1, &[4], ANSWER)
}

fn refusals<W: Write>(out: &mut W) -> io::Result<()> {
    show(out, b"33 equations", LIMIT + 1, 1, &[1; LIMIT + 1])?;
    show(out, b"33 unknowns", 1, LIMIT + 1, &[1; LIMIT + 1])?;
    show(out, b"no equation", 0, 1, b"")?;
    show(out, b"no unknown", 1, 0, b"")?;
    show(out, b"257 equations", 257, 1, &[1; 1])?;
    show(
        out,
        b"all too large",
        18446744073709551615,
        18446744073709551615,
        &[1; 1],
    )?;
    show(out, b"short", 3, 3, &[2, 0, 1, 0, 1, 1, 1, 0])?;
    show(out, b"long", 3, 3, &[2, 0, 1, 0, 1, 1, 1, 0, 0, 0])?;
    show_room(out, b"159 bytes", 1, 1, &[4], ANSWER - 1)?;
    show_room(out, b"no bytes", 1, 1, &[4], 0)?;
    show(out, b"code 5", 2, 2, &[1, 5, 1, 255])?;
    show(out, b"code 5 last", 2, 2, &[4, 4, 4, 5])?;
    show_room(out, b"1 before 2, 3, 4", LIMIT + 1, 1, &[5], 0)?;
    show_room(out, b"2 before 3, 4", 2, 1, &[5], 0)?;
    show_room(out, b"3 before 4", 1, 1, &[5], ANSWER - 1)
}

fn main(rt: HostRuntime) -> io::Result<()> {
    let out = &mut rt.stdout();
    lettered(out)?;
    limits(out)?;
    refusals(out)
}
