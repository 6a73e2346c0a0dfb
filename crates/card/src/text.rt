// Numbers and lines.
ghost use Rattle.std.specs.Prelude.{◌≡◌, drop};
ghost use Rattle.std.specs.Option.{ok_or};
ghost use Rattle.card.specs.Text.{number_of, lines_of};
ghost use Rattle.card.specs.Steps.{end_of};
ghost use Rattle.card.specs.Refusal.{refused_at};
ghost use Rattle.card.specs.declared.refusal.Refusal.TheVariants.{Shape};

use crate::refusal::{Refusal, Refused};

// A number at the front of a text, and how many bytes it takes.
#[derive(Clone, Copy)]
pub struct Number {
    pub value: usize,
    pub took: usize,
}

// The number at the front: a leading 0 stands alone, any other digit takes up to three more with it.
pub fn front_number(text: &[u8]) -> Option<Number>
    ensures { result ≡ number_of text.now }
{
    let &first = text.first()?;
    if !first.is_ascii_digit() {
        return None;
    }
    if first == b'0' {
        return Some(Number { value: 0, took: 1 });
    }
    let mut number = Number {
        value: usize::from(first - b'0'),
        took: 1,
    };
    // Looked up by place: with a part of at most three bytes cut out first, reading a large card takes up to a quarter longer (docs/LOOK-BACK.md).
    for at in 1..4 {
        if text.len() <= at || !text[at].is_ascii_digit() {
            return Some(number);
        }
        number.value = number.value * 10 + usize::from(text[at] - b'0');
        number.took += 1;
    }
    Some(number)
}

// The end of the line that starts at a place.
// Kept (point 5): here and in judge.rt and list.rt a card and a place go side by side. A cursor of both is no plainer: `count_of`, `turn_of` and
// `end_said` speak of the place alone, so each contract would have to say besides that the cursor is still of this card.
pub fn line_at(card: &[u8], at: usize) -> Option<usize>
    ensures { result ≡ end_of at (lines_of (drop at card.now)) }
{
    for end in at..card.len() {
        if card[end] == b'\n' {
            return Some(end);
        }
    }
    None
}

// The same where a line is due.
pub fn line_end(card: &[u8], at: usize) -> Result<usize, Refused>
    ensures { result ≡ ok_or (end_of at (lines_of (drop at card.now))) (refused_at Shape at) }
{
    line_at(card, at).ok_or(Refusal::Shape.at(at))
}
