// The printed result: the bytes that the program writes for the bytes of a card.
#![tactic(auto)]

pub mod list;
pub mod text;

ghost use Rattle.std.specs.Prelude.{◌≡◌, ◌≤◌, length, IfOk};
ghost use Rattle.table.specs.Model.{limit};
ghost use Rattle.card.specs.Laid.{Laid};
ghost use Rattle.report.specs.Printed.{Reported};
ghost use Rattle.report.specs.Steps.{unfit_number, unfit_place, verdict_text, findings_text, Analysed, Examined};
ghost use Rattle.report.specs.declared.Unfit.TheVariants.{Faulty};

use crate::text::{put_refused, put_singular, put_solvable};
use analysis::mudorder_analyse;
use analysis::strip::ANSWER;
use card::{Refused, Size, name_of, read};
use table::CELLS;

// The most bytes of input that are read as a card.
pub const INPUT_LIMIT: usize = 16384;

// No text is longer.
pub const TEXT_LIMIT: usize = 1024;

// Why nothing of a card is analysed: it is too long to be read, or the reader refuses it.
#[derive(Clone, Copy)]
pub enum Unfit {
    TooLong,
    Faulty(Refused),
}

impl Unfit {
    // Kept (point 4): no `From<Unfit> for u8`, which would be the same `match`.
    fn number(self) -> u8
        ensures { result ≡ unfit_number self }
    {
        match self {
            Unfit::TooLong => 19,
            Unfit::Faulty(refused) => refused.refusal.number(),
        }
    }

    // Kept (point 1): 0 with `TooLong`, for document 01 hands out 0 there.
    fn place(self) -> usize
        ensures { result ≡ unfit_place self }
    {
        match self {
            Unfit::TooLong => 0,
            Unfit::Faulty(refused) => refused.place,
        }
    }
}

impl From<Refused> for Unfit {
    ghost from_gives = { λ refused unfit. unfit ≡ Faulty refused };

    fn from(refused: Refused) -> Unfit {
        Unfit::Faulty(refused)
    }
}

// What the analysis handed back of a card.
// Kept (point 5): that its equations are within the limit stays a clause of the two that read it, `put_analysis` and `put_text`; as a ghost field it would be
// proved where `analysed` makes the value, and say no more.
#[derive(Clone, Copy)]
pub struct Analysis {
    pub equations: usize,
    pub number: u64,
    pub answer: [u8; ANSWER],
}

fn analysed(size: Size, table: &[u8]) -> Analysis
    ensures { Analysed size.equations size.unknowns table.now result }
{
    let mut answer = [0; ANSWER];
    let number = mudorder_analyse(size.equations, size.unknowns, table, &mut answer);
    Analysis {
        equations: size.equations,
        number,
        answer,
    }
}

// The card judged, and a good one analysed.
fn examined(card: &[u8]) -> Result<Analysis, Unfit>
    ensures { Examined card.now result }
{
    if INPUT_LIMIT < card.len() {
        return Err(Unfit::TooLong);
    }
    let mut table = [0; CELLS];
    let size = read(card, &mut table)?;
    let cells = size.equations * size.unknowns;
    Ok(analysed(size, &table[..cells]))
}

// The text of what the analysis handed back.
fn put_analysis(out: &mut [u8], name: &[u8], found: &Analysis) -> usize
    requires { (length name.now ≤ 24) × (found.now.equations ≤ limit) }
    ensures { Laid out.old 0 (verdict_text name.now found.now.equations found.now.number found.now.answer) out.new result }
{
    // Kept (point 1): the C entry hands back one number, and its lowest byte is 0 for a solvable model alone (`code_zero`).
    let number = found.number;
    if number % 256 == 0 {
        put_solvable(out, name, found.equations, number, &found.answer)
    } else {
        put_singular(out, name, number, &found.answer)
    }
}

// The text of what was found.
fn put_text(out: &mut [u8], name: &[u8], found: &Result<Analysis, Unfit>) -> usize
    requires { (length name.now ≤ 24) × IfOk found.now (λ analysis. analysis.equations ≤ limit) }
    ensures { Laid out.old 0 (findings_text name.now found.now) out.new result }
{
    match found {
        Ok(analysis) => put_analysis(out, name, analysis),
        Err(unfit) => put_refused(out, unfit.number(), unfit.place()),
    }
}

// The printed result of a card: hands back its length, and writes it into the first bytes where there is room for all of it. It asks nothing of its
// caller. The text is measured first, by laying it into a part of length 0.
#[tactic(auto, using(card::proofs::Theorems::name_fits))]
pub fn report(card: &[u8], out: &mut [u8]) -> usize
    ensures { Reported card.now out.old result out.new }
{
    let found = examined(card);
    let name = name_of(card);
    let length = put_text(&mut out[..0], name, &found);
    if out.len() < length {
        return length;
    }
    put_text(out, name, &found)
}
