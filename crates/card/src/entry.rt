// What one line says. A line comes without its LF.
ghost use Rattle.std.specs.Prelude.{◌≡◌};
ghost use Rattle.std.specs.List.{list_all};
ghost use Rattle.card.specs.Entry.{name_byte, good_name, whole_of, value_of, comma_of, triple_of, entry_of};

use crate::text::{Number, front_number};

// The numbers of an occurs line.
#[derive(Clone, Copy)]
pub struct Occurrence {
    pub equation: usize,
    pub unknown: usize,
    pub order: usize,
}

// A line after the unknowns line.
#[derive(Clone, Copy)]
pub enum Entry {
    Occurs(Occurrence),
    End(usize),
}

fn name_byte(byte: u8) -> bool
    ensures { result ≡ name_byte byte }
{
    byte.is_ascii_lowercase() || byte.is_ascii_digit() || byte == b'-'
}

fn name_bytes(name: &[u8]) -> bool
    ensures { result ≡ list_all name_byte name.now }
{
    name.iter().all(|&byte| name_byte(byte))
}

// 1 to 24 bytes of a-z, 0-9 and hyphen.
pub fn good_name(name: &[u8]) -> bool
    ensures { result ≡ good_name name.now }
{
    (1..=24).contains(&name.len()) && name_bytes(name)
}

// The whole text is one number.
fn whole(text: &[u8]) -> Option<usize>
    ensures { result ≡ whole_of text.now }
{
    let number = front_number(text)?;
    if number.took == text.len() {
        Some(number.value)
    } else {
        None
    }
}

// The line is the key and one number.
pub fn line_value(line: &[u8], key: &[u8]) -> Option<usize>
    ensures { result ≡ value_of key.now line.now }
{
    if line.starts_with(key) {
        whole(&line[key.len()..])
    } else {
        None
    }
}

// A number and a comma in front.
fn with_comma(text: &[u8]) -> Option<Number>
    ensures { result ≡ comma_of text.now }
{
    let number = front_number(text)?;
    if text[number.took..].starts_with(b",") {
        Some(Number {
            took: number.took + 1,
            ..number
        })
    } else {
        None
    }
}

// `e,u,k`.
fn triple(text: &[u8]) -> Option<Entry>
    ensures { result ≡ triple_of text.now }
{
    let equation = with_comma(text)?;
    let behind = &text[equation.took..];
    let unknown = with_comma(behind)?;
    let order = whole(&behind[unknown.took..])?;
    Some(Entry::Occurs(Occurrence {
        equation: equation.value,
        unknown: unknown.value,
        order,
    }))
}

// A line beginning `end=` is the end line, any other is due to be an occurs line.
pub fn line_entry(line: &[u8]) -> Option<Entry>
    ensures { result ≡ entry_of line.now }
{
    if line.starts_with(b"end=") {
        return line_value(line, b"end=").map(Entry::End);
    }
    if line.starts_with(b"occurs=") {
        triple(&line[7..])
    } else {
        None
    }
}
