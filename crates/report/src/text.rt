// The three texts: solvable, singular, refused. Each starts at the first byte and hands back its length.
// Kept (point 5): that a name has at most 24 bytes, a list 32 and an answer 160 stands in several contracts; `put_solvable` and `put_singular` (docs/PROMISES.md) take
// slices, and a type for either would ask more of whoever has one.
ghost use Rattle.std.specs.Prelude.{◌≡◌, [], ◌∷◌, ◌++◌, ◌+◌, ◌*◌, ◌^◌, ◌≤◌, ◌<◌, length};
ghost use Rattle.table.specs.Model.{limit};
ghost use Rattle.analysis.specs.Outcome.{answer_bytes};
ghost use Rattle.card.specs.Text.{LF, dec};
ghost use Rattle.card.specs.Laid.{Laid, LaidOn};
ghost use Rattle.report.specs.Printed.{field, commas, or_none, blocks_of, place_dec, refused_text};
ghost use Rattle.report.specs.Steps.{used_in, head_text, singular_text, solvable_text, strip_in};

use crate::list::{put_blocks, put_commas, put_used};
use card::put::{Sheet, digit_of};
use table::LIMIT;

// The first places of a strip; strips count from 0.
fn strip(answer: &[u8], k: usize, n: usize) -> &[u8]
    requires { (k ≤ 4) × (k * limit + n ≤ length answer.now) }
    ensures places { result.now ≡ strip_in k n answer.now }
    ensures size { length result.now ≡ n }
{
    let start = k * LIMIT;
    &answer[start..start + n]
}

// A key, a list by commas, and the line's end.
// Kept (point 2): this, `put_left` and `put_order` differ in the function that they call; one that took it as a closure over a `&mut Sheet` would need
// a contract longer than the three bodies.
#[tactic(auto, using(crate::proofs::TextLaws::joined_short))]
fn put_list(sheet: &mut Sheet, key: &[u8], list: &[u8])
    requires { (sheet.old.at + length key.now ≤ 2 ^ 32) × (length list.now ≤ limit) }
    ensures text { LaidOn sheet.old (key.now ++ (commas list.now ++ LF ∷ [])) sheet.new }
    ensures near { sheet.new.at ≤ sheet.old.at + length key.now + 161 }
{
    sheet.put_all(key);
    put_commas(sheet, list);
    sheet.put(b'\n');
}

// A key, the used places of a strip or `none`, and the line's end.
#[tactic(auto, using(crate::proofs::TextLaws::used_short))]
fn put_left(sheet: &mut Sheet, key: &[u8], strip: &[u8])
    requires { (sheet.old.at + length key.now ≤ 2 ^ 32) × (length strip.now ≤ limit) }
    ensures text { LaidOn sheet.old (key.now ++ (or_none (used_in strip.now) ++ LF ∷ [])) sheet.new }
    ensures near { sheet.new.at ≤ sheet.old.at + length key.now + 165 }
{
    sheet.put_all(key);
    put_used(sheet, strip);
    sheet.put(b'\n');
}

// The blocks, in solving order.
#[tactic(auto, using(crate::proofs::TextLaws::joined_short))]
fn put_order(sheet: &mut Sheet, order: &[u8], block: &[u8])
    requires { (sheet.old.at ≤ 2 ^ 32) × (length order.now ≤ limit) × (length order.now ≤ length block.now) }
    ensures { LaidOn sheet.old (field "blocks=" (blocks_of order.now block.now)) sheet.new }
{
    sheet.put_all(b"blocks=");
    put_blocks(sheet, order, block);
    sheet.put(b'\n');
}

// The rig and the verdict.
fn put_head(sheet: &mut Sheet, name: &[u8], verdict: &[u8])
    requires { (sheet.old.at ≤ 2 ^ 32) × (length name.now ≤ 24) × (length verdict.now ≤ 8) }
    ensures text { LaidOn sheet.old (head_text name.now verdict.now) sheet.new }
    ensures near { sheet.new.at ≤ sheet.old.at + 46 }
{
    sheet.put_all(b"rig=");
    sheet.put_all(name);
    sheet.put(b'\n');
    sheet.put_all(b"verdict=");
    sheet.put_all(verdict);
    sheet.put(b'\n');
}

// A key, a figure, and the line's end.
fn put_figure(sheet: &mut Sheet, key: &[u8], figure: u8)
    requires { sheet.old.at + length key.now ≤ 2 ^ 32 }
    ensures text { LaidOn sheet.old (key.now ++ (dec figure ++ LF ∷ [])) sheet.new }
    ensures near { sheet.new.at ≤ sheet.old.at + length key.now + 5 }
{
    sheet.put_line(key, usize::from(figure));
}

// A solvable model of n equations.
pub fn put_solvable(out: &mut [u8], name: &[u8], n: usize, number: u64, answer: &[u8]) -> usize
    requires { (length name.now ≤ 24) × (n ≤ limit) × (length answer.now ≡ answer_bytes) }
    ensures { Laid out.old 0 (solvable_text name.now n number answer.now) out.new result }
{
    let [_, _, _, _, index, freedom, _, _] = number.to_le_bytes();
    let mut sheet = Sheet { buffer: out, at: 0 };
    put_head(&mut sheet, name, b"solvable");
    put_figure(&mut sheet, b"index=", index);
    put_figure(&mut sheet, b"freedom=", freedom);
    put_list(&mut sheet, b"counts=", strip(answer, 0, n));
    put_list(&mut sheet, b"tops=", strip(answer, 1, n));
    put_list(&mut sheet, b"pairs=", strip(answer, 2, n));
    put_order(&mut sheet, strip(answer, 3, n), strip(answer, 4, n));
    sheet.at
}

// A singular model.
pub fn put_singular(out: &mut [u8], name: &[u8], number: u64, answer: &[u8]) -> usize
    requires { (length name.now ≤ 24) × (length answer.now ≡ answer_bytes) }
    ensures { Laid out.old 0 (singular_text name.now number answer.now) out.new result }
{
    let [_, _, _, rank, _, _, _, _] = number.to_le_bytes();
    let mut sheet = Sheet { buffer: out, at: 0 };
    put_head(&mut sheet, name, b"singular");
    put_figure(&mut sheet, b"rank=", rank);
    put_left(&mut sheet, b"surplus=", strip(answer, 0, LIMIT));
    put_left(&mut sheet, b"unfixed=", strip(answer, 1, LIMIT));
    sheet.at
}

// The digits of a place.
// Kept (point 4): no `Display`, for it is laid on a sheet, which counts where there is no room, and says the definition's digits (`place_dec`).
#[tactic(auto, using(card::proofs::PutLaws::dec_short, crate::proofs::TextLaws::place_four, crate::proofs::TextLaws::place_five))]
fn put_place(sheet: &mut Sheet, place: usize)
    requires { sheet.old.at + 5 < 2 ^ 64 }
    ensures text { LaidOn sheet.old (place_dec place) sheet.new }
    ensures near { sheet.new.at ≤ sheet.old.at + 5 }
{
    if place < 10000 {
        sheet.put_number(place);
    } else {
        let digits = [
            digit_of(place / 10000),
            digit_of(place / 1000),
            digit_of(place / 100),
            digit_of(place / 10),
            digit_of(place),
        ];
        sheet.put_all(&digits);
    }
}

// A refusal: its number and its place, and nothing else.
// Kept (point 1): it takes a number, since docs/PROMISES.md names it, with `refused_text` of every number.
pub fn put_refused(out: &mut [u8], number: u8, place: usize) -> usize
    ensures { Laid out.old 0 (refused_text number place) out.new result }
{
    let mut sheet = Sheet { buffer: out, at: 0 };
    put_figure(&mut sheet, b"refused=", number);
    sheet.put_all(b"place=");
    put_place(&mut sheet, place);
    sheet.put(b'\n');
    sheet.at
}
