// Runs `card` on the cases of standard input, which a '~' ends each, and on the writer's refusals. One line for each.
#![tactic(auto)]

ghost use Rattle.std.specs.Prelude.{◌≤◌, length, IfOk};

use card::{Refused, Size};
use shown::printing::{print, print_number, print_numbers};
use std::io;
use std::io::{Read, Write};
use table::LIMIT;

// Room for all the cases together.
const INPUT_ROOM: usize = 65536;

// Room for a card that is written: none is as long.
const CARD_ROOM: usize = 65536;

// Room for a table of any size that a card can have.
const TABLE_ROOM: usize = 4096;

fn number<W: Write>(out: &mut W, n: usize) -> io::Result<()> {
    // Kept (point 4): `u64::from` takes no usize, and `try_from` would hand back an error that cannot come.
    print_number(out, n as u64)?;
    print(out, b" ")
}

fn verdict<W: Write>(out: &mut W, same: bool) -> io::Result<()> {
    if same {
        print(out, b"same ")
    } else {
        print(out, b"differs ")
    }
}

// The bytes of a table buffer, which are digits.
fn digits<W: Write>(out: &mut W, table: &[u8]) -> io::Result<()> {
    print_numbers(out, b"", table)?;
    print(out, b" ")
}

// The number and the place of a refusal, and 0 and 0 where nothing is refused.
fn refusal<W: Write>(out: &mut W, refused: Option<Refused>) -> io::Result<()> {
    number(
        out,
        refused.map_or(0, |it| usize::from(it.refusal.number())),
    )?;
    number(out, refused.map_or(0, |it| it.place))
}

fn read_says<W: Write>(out: &mut W, read: Result<Size, Refused>) -> io::Result<()> {
    refusal(out, read.err())?;
    number(out, read.map_or(0, |size| size.equations))?;
    number(out, read.map_or(0, |size| size.unknowns))
}

fn write_says<W: Write>(out: &mut W, written: Result<usize, Refused>) -> io::Result<()> {
    refusal(out, written.err())?;
    number(out, written.unwrap_or(0))
}

// What the writer says with so much room.
fn wrote<W: Write>(
    out: &mut W,
    name: &[u8],
    equations: usize,
    unknowns: usize,
    table: &[u8],
    room: usize,
) -> io::Result<()> {
    let mut card = [0u8; CARD_ROOM];
    if room <= CARD_ROOM {
        let written = card::write(name, equations, unknowns, table, &mut card[..room]);
        write_says(out, written)?;
    }
    Ok(())
}

// A table that was read, written again with room for the card and with a byte less.
fn again<W: Write>(
    out: &mut W,
    case: &[u8],
    equations: usize,
    unknowns: usize,
    table: &[u8],
) -> io::Result<()> {
    let mut card = [0u8; CARD_ROOM];
    let name = card::name_of(case);
    let written = card::write(name, equations, unknowns, table, &mut card);
    write_says(out, written)?;
    let length = written.unwrap_or(0);
    verdict(out, &card[..length] == case)?;
    if 0 < length {
        wrote(out, name, equations, unknowns, table, length - 1)?;
    }
    Ok(())
}

// The answer with a table buffer of 16 bytes, 9 in each, and those bytes.
fn run_small<W: Write>(out: &mut W, case: &[u8]) -> io::Result<()> {
    let mut small = [9u8; 16];
    let read = card::read(case, &mut small);
    number(
        out,
        read.err().map_or(0, |it| usize::from(it.refusal.number())),
    )?;
    digits(out, &small)
}

// A case: the answer with a table buffer of 4,096 bytes and the name; the answer with a small one; the way back.
fn run<W: Write>(out: &mut W, case: &[u8]) -> io::Result<()> {
    let mut large = [0u8; TABLE_ROOM];
    let read = card::read(case, &mut large);
    read_says(out, read)?;
    print(out, card::name_of(case))?;
    print(out, b" ")?;
    run_small(out, case)?;
    if let Ok(
        Size {
            equations,
            unknowns,
        },
    ) = read
    {
        again(
            out,
            case,
            equations,
            unknowns,
            &large[..equations * unknowns],
        )?;
    }
    print(out, b"\n")
}

// Each case, without the '~' that ends it.
fn each<W: Write>(out: &mut W, input: &[u8]) -> io::Result<()> {
    for case in input.split_inclusive(|&byte| byte == b'~') {
        run(out, case.strip_suffix(b"~").unwrap_or(case))?;
    }
    Ok(())
}

// What the writer says, on a line of its own.
fn wrote_line<W: Write>(
    out: &mut W,
    name: &[u8],
    equations: usize,
    unknowns: usize,
    table: &[u8],
    room: usize,
) -> io::Result<()> {
    wrote(out, name, equations, unknowns, table, room)?;
    print(out, b"\n")
}

// 12, 13, 2, 4 and 18, each where those behind it apply too.
fn refusals<W: Write>(out: &mut W) -> io::Result<()> {
    wrote_line(out, b"", 0, 3, b"\x05", 0)?;
    wrote_line(out, b"abcdefghijklmnopqrstuvwxy", 0, 3, b"\x05", 0)?;
    wrote_line(out, b"Rig", 0, 3, b"\x05", 0)?;
    wrote_line(out, b"a", 0, 3, b"\x05", 0)?;
    wrote_line(out, b"a", 1, LIMIT + 1, b"\x05", 0)?;
    wrote_line(out, b"a", 1, 2, b"\x05", 0)?;
    wrote_line(out, b"a", 1, 2, b"\x04\x05", 0)?;
    wrote_line(out, b"a", 1, 1, b"\x04", 47)?;
    wrote_line(out, b"a", 1, 1, b"\x04", 48)
}

// Reads until the buffer is full or the input ends, and returns how many bytes it put there.
// Kept (point 2): `fill` of `mudorder` reads the same way. One function for both is no plainer: no crate can call a program's function, so it would be a
// crate of its own for a loop of six lines, or the delivered program would rely on a crate of the gate.
// Kept (point 3): `read_exact` says nothing of an input that ends before the buffer is full, and `read_to_end` needs a `Vec`.
fn read_full<R: Read>(reader: &mut R, buffer: &mut [u8]) -> io::Result<usize>
    ensures { IfOk result (λ n. n ≤ length buffer.new) }
{
    let mut done = 0;
    while done < buffer.len() {
        match reader.read(&mut buffer[done..])? {
            0 => break,
            count => done += count,
        }
    }
    Ok(done)
}

fn main(rt: HostRuntime) -> io::Result<()> {
    let out = &mut rt.stdout();
    let mut input = [0u8; INPUT_ROOM];
    let n = read_full(&mut rt.stdin(), &mut input)?;
    each(out, &input[..n])?;
    refusals(out)
}
