// The occurs lines and the end line.
ghost use Rattle.std.specs.Prelude.{◌≡◌, ◌≤◌, length, drop};
ghost use Rattle.card.specs.Text.{lines_of};
ghost use Rattle.table.specs.Number.{equation_number, unknown_number};
ghost use Rattle.card.specs.declared.entry.Entry.TheVariants.{Occurs};
ghost use Rattle.card.specs.Card.{in_range, not_after, turn_said, turn_of};
ghost use Rattle.card.specs.Steps.{last_equation, last_unknown, said_in, end_said, ListRead};

use crate::entry::{Entry, Occurrence, line_entry};
use crate::head::Limits;
use crate::refusal::{Refusal, Refused};
use crate::text::line_end;
use table::CELLS;
use table::number::{Counted, Equation, Unknown};

// The pair of an occurs line; pairs ascend by equation and then unknown.
#[derive(Clone, Copy, PartialEq, Eq, PartialOrd, Ord)]
pub struct Pair {
    pub equation: Equation,
    pub unknown: Unknown,
}

// A line after the unknowns line: its pair and code, or the end line's number; and where the next line starts.
#[derive(Clone, Copy)]
pub enum Turn {
    Next { pair: Pair, code: u8, next: usize },
    Last { count: usize, next: usize },
}

fn in_range(limits: Limits, it: Occurrence) -> bool
    ensures { result ≡ in_range limits.equations limits.unknowns it.equation it.unknown it.order }
{
    (1..=limits.equations).contains(&it.equation)
        && (1..=limits.unknowns).contains(&it.unknown)
        && it.order <= 3
}

// The pair equals or precedes the one before.
fn not_after(pair: Pair, last: Option<Pair>) -> bool
    ensures { result ≡ not_after (equation_number pair.equation) (unknown_number pair.unknown) (last_equation last) (last_unknown last) }
{
    last.is_some_and(|last| pair <= last)
}

// What an occurs line comes to: 14 before 15.
fn read_pair(
    limits: Limits,
    last: Option<Pair>,
    at: usize,
    next: usize,
    it: Occurrence,
) -> Result<Turn, Refused>
    ensures { said_in result ≡ turn_said limits.equations limits.unknowns (last_equation last) (last_unknown last) at next (Some (Occurs it)) }
{
    if !in_range(limits, it) {
        return Err(Refusal::OutOfRange.at(at));
    }
    let pair = Pair {
        equation: Equation::at(it.equation - 1),
        unknown: Unknown::at(it.unknown - 1),
    };
    if not_after(pair, last) {
        return Err(Refusal::NotAfter.at(at));
    }
    Ok(Turn::Next {
        pair,
        // Kept (point 4): `as` is proved to lose nothing; `u8::try_from` would make a Result that cannot be an error.
        code: (it.order + 1) as u8,
        next,
    })
}

// The line at a place, behind a line of the pair `last`.
fn read_turn(card: &[u8], at: usize, limits: Limits, last: Option<Pair>) -> Result<Turn, Refused>
    ensures { said_in result ≡ turn_of limits.equations limits.unknowns (last_equation last) (last_unknown last) at (lines_of (drop at card.now)) }
{
    let end = line_end(card, at)?;
    let next = end + 1;
    match line_entry(&card[at..end]).ok_or(Refusal::Shape.at(at))? {
        Entry::End(count) => Ok(Turn::Last { count, next }),
        Entry::Occurs(it) => read_pair(limits, last, at, next, it),
    }
}

// The end line at a place, behind so many occurs lines: 16 before bytes behind it.
fn read_end(card: &[u8], said: usize, count: usize, at: usize, next: usize) -> Result<(), Refused>
    ensures { result ≡ end_said (length card.now) said count at next }
{
    if said != count {
        return Err(Refusal::EndNumber.at(at));
    }
    if next < card.len() {
        return Err(Refusal::Shape.at(next));
    }
    Ok(())
}

// The occurs lines and the end line, from a place on: the table collected from them.
// Kept (point 6): room for the largest table, of which E × U bytes are used: there is no heap, and memory is fixed.
pub fn read_list(card: &[u8], from: usize, limits: Limits) -> Result<[u8; CELLS], Refused>
    requires { from ≤ length card.now }
    ensures { ListRead card.now limits.equations limits.unknowns from result }
{
    let mut table = [0u8; CELLS];
    let mut last = None;
    let mut count = 0;
    let mut at = from;
    // Kept (point 3): `split_inclusive` would give the lines without their places, which the refusals need, and those would be counted by hand beside them.
    loop {
        match read_turn(card, at, limits, last)? {
            Turn::Last { count: said, next } => {
                read_end(card, said, count, at, next)?;
                return Ok(table);
            }
            Turn::Next { pair, code, next } => {
                let cell = pair.equation.place() * limits.unknowns + pair.unknown.place();
                table[cell] = code;
                last = Some(pair);
                count += 1;
                at = next;
            }
        }
    }
}
