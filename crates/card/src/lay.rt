// The card of a table, laid line by line.
ghost use Rattle.std.specs.Prelude.{◌≡◌, ◌∷◌, ◌++◌, ◌+◌, ◌*◌, ◌^◌, ◌≤◌, ◌<◌, length};
ghost use Rattle.table.specs.Model.{limit};
ghost use Rattle.table.specs.Number.{equation_number, unknown_number};
ghost use Rattle.card.specs.Text.{occurs_key, comma, dec};
ghost use Rattle.card.specs.Card.{line_of, occurs_line, occurs_lines, occurrences, head_lines, card_of};
ghost use Rattle.card.specs.Laid.{Laid, LaidOn};

use crate::put::Sheet;
use table::number::{Counted, Equation, Unknown};

// `occurs=e,u,k`
#[tactic(auto, using(crate::proofs::PutLaws::dec_short, crate::proofs::PutLaws::comma_short))]
fn put_occurs(sheet: &mut Sheet, equation: Equation, unknown: Unknown, order: usize)
    requires { sheet.old.at + 22 < 2 ^ 64 }
    ensures { LaidOn sheet.old (line_of (occurs_key ++ dec (equation_number equation) ++ comma ∷ dec (unknown_number unknown) ++ comma ∷ dec order)) sheet.new }
{
    sheet.put_all(b"occurs=");
    sheet.put_comma(usize::from(equation.number().get()));
    sheet.put_comma(usize::from(unknown.number().get()));
    sheet.put_number(order);
    sheet.put(b'\n');
}

// The line of one byte of the table: its equation and unknown are its row and column.
fn put_cell(sheet: &mut Sheet, unknowns: usize, cell: usize, code: u8)
    requires { (sheet.old.at + 22 < 2 ^ 64) × (1 ≤ unknowns) × (unknowns ≤ limit) × (cell < limit * unknowns) }
    ensures { LaidOn sheet.old (occurs_line unknowns cell code) sheet.new }
{
    if code != 0 {
        let equation = Equation::at(cell / unknowns);
        let unknown = Unknown::at(cell % unknowns);
        put_occurs(sheet, equation, unknown, usize::from(code - 1));
    }
}

// The occurs lines, row by row.
#[tactic(auto, using(crate::proofs::WriteLaws::lines_near))]
fn put_cells(sheet: &mut Sheet, unknowns: usize, table: &[u8])
    requires { (sheet.old.at ≤ 2 ^ 32) × (1 ≤ unknowns) × (unknowns ≤ limit) × (length table.now ≤ limit * unknowns) }
    ensures { LaidOn sheet.old (occurs_lines unknowns 0 table.now) sheet.new }
{
    for (cell, &code) in table.iter().enumerate() {
        put_cell(sheet, unknowns, cell, code);
    }
}

// How many codes are not 0.
#[tactic(auto, using(crate::proofs::WriteLaws::occurrences_count))]
fn count_codes(table: &[u8]) -> usize
    ensures { result ≡ occurrences table.now }
{
    table.iter().filter(|code| **code != 0).count()
}

// The first three lines.
fn put_head(sheet: &mut Sheet, name: &[u8], equations: usize, unknowns: usize)
    requires { (sheet.old.at ≤ 2 ^ 32) × (length name.now ≤ 24) }
    ensures { LaidOn sheet.old (head_lines name.now equations unknowns) sheet.new }
{
    sheet.put_all(b"rig=");
    sheet.put_all(name);
    sheet.put(b'\n');
    sheet.put_line(b"equations=", equations);
    sheet.put_line(b"unknowns=", unknowns);
}

// The whole card, from the first byte on.
// Kept (point 5): here, in `put_cells` and in `put_cell` U is a bare number within the limit; a `Limits` would bring an E that none of them reads.
#[tactic(auto, using(crate::proofs::WriteLaws::head_short, crate::proofs::WriteLaws::lines_short))]
pub fn put_card(
    card: &mut [u8],
    name: &[u8],
    equations: usize,
    unknowns: usize,
    table: &[u8],
) -> usize
    requires { (length name.now ≤ 24) × (1 ≤ unknowns) × (unknowns ≤ limit) × (length table.now ≤ limit * unknowns) }
    ensures { Laid card.old 0 (card_of name.now equations unknowns table.now) card.new result }
{
    let mut sheet = Sheet {
        buffer: card,
        at: 0,
    };
    put_head(&mut sheet, name, equations, unknowns);
    put_cells(&mut sheet, unknowns, table);
    sheet.put_line(b"end=", count_codes(table));
    sheet.at
}
