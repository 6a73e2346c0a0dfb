// The first three lines: `rig=NAME`, `equations=E`, `unknowns=U`.
ghost use Rattle.std.specs.Prelude.{◌≡◌, ◌≤◌, ◌<◌, length, drop};
ghost use Rattle.card.specs.Text.{lines_of};
ghost use Rattle.card.specs.Card.{rig_of, count_of};
ghost use Rattle.card.specs.Steps.{HeadRead, CountsRead};

use crate::entry::{good_name, line_value};
use crate::head::{Head, Limits};
use crate::refusal::{Refusal, Refused};
use crate::text::line_end;
use table::judge::counted;

// Where the rig line's LF stands.
fn read_rig(card: &[u8]) -> Result<usize, Refused>
    ensures { result ≡ rig_of (lines_of card.now) }
{
    let end = line_end(card, 0)?;
    let line = &card[..end];
    if !line.starts_with(b"rig=") {
        return Err(Refusal::Shape.at(0));
    }
    if good_name(&line[4..]) {
        Ok(end)
    } else {
        Err(Refusal::Name.at(0))
    }
}

// The number of a count line, and where the next line starts.
fn read_count(card: &[u8], at: usize, key: &[u8]) -> Result<(usize, usize), Refused>
    ensures { result ≡ count_of key.now at (lines_of (drop at card.now)) }
{
    let end = line_end(card, at)?;
    let number = line_value(&card[at..end], key).ok_or(Refusal::Shape.at(at))?;
    if counted(number) {
        Ok((number, end + 1))
    } else {
        Err(Refusal::Limits.at(at))
    }
}

// The two count lines, behind a rig line whose LF stands at `end`.
fn read_counts(card: &[u8], end: usize) -> Result<Head, Refused>
    requires { (4 ≤ end) × (end < length card.now) }
    ensures { CountsRead card.now end result }
{
    let (equations, second) = read_count(card, end + 1, b"equations=")?;
    let (unknowns, next) = read_count(card, second, b"unknowns=")?;
    let limits = Limits {
        equations,
        unknowns,
    };
    Ok(Head {
        name_end: end,
        limits,
        next,
    })
}

pub fn read_head(card: &[u8]) -> Result<Head, Refused>
    ensures { HeadRead card.now result }
{
    let end = read_rig(card)?;
    read_counts(card, end)
}
