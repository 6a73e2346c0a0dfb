// Reads a card from standard input and writes its printed result to standard output; nothing else. Where standard input cannot be read to its end there
// is no result: standard output stays empty, and standard error says why. Where standard output does not take the whole result, standard error says so.
// The exit status is 1 in these two cases, and else 0.
#![tactic(auto)]

mod input;

ghost use Rattle.std.specs.Prelude.{List, ◌++◌, ℕ, ◌≤◌, ◌<◌, length, take, OnOk, IfErr};
ghost use Rattle.std.specs.Io.KnownBytes.{Appends};
ghost use Rattle.report.specs.Printed.{input_limit, Reported};
ghost use Rattle.mudorder.specs.Answer.{Answered, Unanswered, IsUntaken};

use crate::input::{Input, fill};
use report::{INPUT_LIMIT, TEXT_LIMIT, report};
use std::io::{Read, Write};
use std::process::ExitCode;
use std::{fmt, io};

// Why there is no result, or not the whole of it.
#[derive(Clone, Copy)]
enum Failure {
    Unread(io::Error),
    Untaken(io::Error),
}

impl fmt::Display for Failure {
    fn fmt<W: fmt::Write>(&self, f: &mut fmt::Formatter<W>) -> fmt::Result {
        match self {
            Failure::Unread(why) => write!(
                f,
                "no result, since standard input could not be read to its end: {why}"
            ),
            Failure::Untaken(why) => {
                write!(f, "standard output did not take the whole result: {why}")
            }
        }
    }
}

// The result of every input that begins so: above the limit it is refused, whatever follows.
fn report_beginning(beginning: &[u8], text: &mut [u8]) -> usize
    requires { input_limit < length beginning.now }
    ensures { (rest : List ℕ) → Reported (beginning.now ++ rest) text.old result text.new }
{
    report(beginning, text)
}

// Writes the first bytes of a text.
fn print<W: Write>(out: &mut W, text: &[u8], count: usize) -> Result<(), Failure>
    requires { count ≤ length text.now }
    ensures ok { OnOk result (Appends (W.contents out.old) (W.contents out.new) (take count text.now)) }
    ensures err { IfErr result IsUntaken }
{
    out.write_all(&text[..count]).map_err(Failure::Untaken)
}

// Answers what a reader gives, with a buffer for the card that is longer than the limit, and one for the text.
fn answer<R: Read, W: Write>(
    reader: &mut R,
    out: &mut W,
    card: &mut [u8],
    text: &mut [u8],
) -> Result<(), Failure>
    requires { (input_limit < length card.old) × (1024 ≤ length text.old) }
    ensures ok { OnOk result (Answered (R.remaining reader.old) (W.contents out.old) (W.contents out.new)) }
    ensures err { IfErr result (λ failure. Unanswered failure (W.contents out.old) (W.contents out.new)) }
{
    match fill(reader, card).map_err(Failure::Unread)? {
        Input::Ended(count) => {
            let written = report(&card[..count], text);
            print(out, text, written)
        }
        Input::Full => {
            let written = report_beginning(card, text);
            print(out, text, written)
        }
    }
}

fn main(rt: HostRuntime) -> ExitCode {
    let mut card = [0u8; INPUT_LIMIT + 1];
    let mut text = [0u8; TEXT_LIMIT];
    match answer(&mut rt.stdin(), &mut rt.stdout(), &mut card, &mut text) {
        Ok(()) => ExitCode::SUCCESS,
        Err(failure) => {
            // Where standard error does not take the words either, nobody is left to tell.
            let _ = eprintln!(rt; "mudorder: {failure}");
            ExitCode::FAILURE
        }
    }
}
