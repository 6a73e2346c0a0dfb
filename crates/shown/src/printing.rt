// Printing on whatever takes bytes: the programs of the gate print on standard output. A failed write ends what was being printed; what of it was
// taken by then no contract can say.
ghost use Rattle.std.specs.Prelude.{◌++◌, length, OnOk};
ghost use Rattle.std.specs.Fmt.{decimal};
ghost use Rattle.std.specs.Io.KnownBytes.{Appends};
ghost use Rattle.shown.specs.Printing.{next_text, listed, line_text};

use std::io;
use std::io::Write;

pub fn print<W: Write>(out: &mut W, text: &[u8]) -> io::Result<()>
    ensures { OnOk result (Appends (W.contents out.old) (W.contents out.new) text.now) }
{
    out.write_all(text)
}

pub fn print_number<W: Write>(out: &mut W, number: u64) -> io::Result<()>
    ensures { OnOk result (Appends (W.contents out.old) (W.contents out.new) (decimal number)) }
{
    write!(out, "{number}")
}

pub fn print_figure<W: Write>(out: &mut W, label: &[u8], figure: u64) -> io::Result<()>
    ensures { OnOk result (Appends (W.contents out.old) (W.contents out.new) (label.now ++ decimal figure)) }
{
    print(out, label)?;
    print_number(out, figure)
}

// One of a list of numbers, behind `split` unless it is the first.
pub fn print_next<W: Write>(out: &mut W, split: &[u8], first: bool, number: u8) -> io::Result<()>
    ensures { OnOk result (Appends (W.contents out.old) (W.contents out.new) (next_text split.now first number)) }
{
    if !first {
        print(out, split)?;
    }
    print_number(out, u64::from(number))
}

pub fn print_numbers<W: Write>(out: &mut W, split: &[u8], numbers: &[u8]) -> io::Result<()>
    ensures { OnOk result (Appends (W.contents out.old) (W.contents out.new)
        (listed split.now numbers.now (length numbers.now))) }
{
    for (i, &number) in numbers.iter().enumerate() {
        print_next(out, split, i == 0, number)?;
    }
    Ok(())
}

// A list of numbers on a line of its own.
pub fn print_line<W: Write>(
    out: &mut W,
    label: &[u8],
    split: &[u8],
    numbers: &[u8],
) -> io::Result<()>
    ensures { OnOk result (Appends (W.contents out.old) (W.contents out.new) (line_text label.now split.now numbers.now)) }
{
    print(out, label)?;
    print_numbers(out, split, numbers)?;
    print(out, b"\n")
}
