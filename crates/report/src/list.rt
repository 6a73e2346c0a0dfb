// Lists of numbers, laid as text.
ghost use Rattle.std.specs.Prelude.{◌≡◌, ◌==◌, ℕ, ◌+◌, ◌*◌, ◌^◌, ◌≤◌, ◌<◌, length, position};
ghost use Rattle.analysis.specs.Outcome.{unused};
ghost use Rattle.card.specs.Laid.{LaidOn};
ghost use Rattle.report.specs.Printed.{joined, commas, split_of, blocks_of, or_none};
ghost use Rattle.report.specs.Steps.{used_in};

use analysis::strip::UNUSED;
use card::put::Sheet;

// Numbers, where split(i) is what splits place i from the next.
fn put_joined<F: Fn(usize) -> u8>(sheet: &mut Sheet, numbers: &[u8], split: F)
    requires few { sheet.old.at + 5 * length numbers.now < 2 ^ 64 }
    requires callable { (i : ℕ) → i + 1 < length numbers.now → F.pre split i }
    ensures { (f : ℕ → ℕ) → ((i : ℕ) (b : ℕ) → i + 1 < length numbers.now → F.post split i b → b ≡ f i)
        → LaidOn sheet.old (joined f numbers.now) sheet.new }
{
    let Some((&first, others)) = numbers.split_first() else {
        return;
    };
    sheet.put_number(usize::from(first));
    for (i, &number) in others.iter().enumerate() {
        sheet.put(split(i));
        sheet.put_number(usize::from(number));
    }
}

// Numbers by commas.
pub fn put_commas(sheet: &mut Sheet, numbers: &[u8])
    requires { sheet.old.at + 5 * length numbers.now < 2 ^ 64 }
    ensures { LaidOn sheet.old (commas numbers.now) sheet.new }
{
    put_joined(sheet, numbers, |_| b',');
}

// What splits two neighbours with these block numbers.
fn split_of(block: u8, other: u8) -> u8
    ensures { result ≡ split_of block other }
{
    if block == other { b',' } else { b';' }
}

// The equations in solving order, with the block number of each place.
pub fn put_blocks(sheet: &mut Sheet, order: &[u8], block: &[u8])
    requires { (sheet.old.at + 5 * length order.now < 2 ^ 64) × (length order.now ≤ length block.now) }
    ensures { LaidOn sheet.old (blocks_of order.now block.now) sheet.new }
{
    put_joined(sheet, order, |i| split_of(block[i], block[i + 1]));
}

// Where the first unused place of a strip stands.
fn first_unused(strip: &[u8]) -> Option<usize>
    ensures { result ≡ position (λ place. place == unused) strip.now }
{
    strip.iter().position(|&place| place == UNUSED)
}

// The used places of a strip.
#[tactic(auto, using(crate::proofs::ListLaws::used_before, crate::proofs::ListLaws::used_all))]
fn used(strip: &[u8]) -> &[u8]
    ensures { result.now ≡ used_in strip.now }
{
    match first_unused(strip) {
        Some(count) => &strip[..count],
        None => strip,
    }
}

// The used places of a strip by commas, or `none`.
#[tactic(auto, using(crate::proofs::ListLaws::none_text, crate::proofs::ListLaws::some_text, crate::proofs::ListLaws::used_within))]
pub fn put_used(sheet: &mut Sheet, strip: &[u8])
    requires { sheet.old.at + 5 * length strip.now + 4 < 2 ^ 64 }
    ensures { LaidOn sheet.old (or_none (used_in strip.now)) sheet.new }
{
    let list = used(strip);
    if list.is_empty() {
        sheet.put_all(b"none");
    } else {
        put_commas(sheet, list);
    }
}
