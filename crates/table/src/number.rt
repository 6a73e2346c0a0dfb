// Equation numbers and unknown numbers count separately, each from 1, and one is never used for the other.
ghost use Rattle.std.specs.Prelude.{◌≡◌, get_or, map, ℕ, ◌+◌, ◌-◌, ◌<◌};
ghost use Rattle.std.specs.Int.NonZero.{non_zero_u8_get};
ghost use Rattle.table.specs.Model.{limit};
ghost use Rattle.table.specs.Number.{equation_number, unknown_number, or_zero};

use crate::{LIMIT, Row};
use laws::array::tabulated;
use std::num::NonZeroU8;

// Kept (point 5): that a number is at most the limit stays a clause of those who index by it, for `place`, `or_zero` and `numbers` take any number, and a
// narrower type would ask more of their callers.
// Kept (point 2): two types that differ in their names alone, for document 01 asks for a tuple struct each; all that they share is in the trait `Counted`.
#[derive(Clone, Copy, PartialEq, Eq, PartialOrd, Ord)]
pub struct Equation(pub NonZeroU8);

#[derive(Clone, Copy, PartialEq, Eq, PartialOrd, Ord)]
pub struct Unknown(pub NonZeroU8);

// What the two kinds share: each counts the rows or the columns of a table from 1.
pub trait Counted: Copy {
    ghost number: { Self → ℕ };

    fn numbered(value: NonZeroU8) -> Self
        ensures { number result ≡ non_zero_u8_get value };

    fn number(self) -> NonZeroU8
        ensures { non_zero_u8_get result ≡ number self };

    // The one whose row or column stands at a place counted from 0.
    final fn at(place: usize) -> Self
        requires { place < limit }
        ensures { number result ≡ place + 1 }
    {
        // Kept (point 4): `as` is proved to lose nothing; `try_from` would hand back an error that cannot come.
        Self::numbered(NonZeroU8::MIN.saturating_add(place as u8))
    }

    // The place of its row or column, counted from 0.
    final fn place(self) -> usize
        ensures { result ≡ number self - 1 }
    {
        usize::from(self.number().get()) - 1
    }
}

impl Counted for Equation {
    ghost number = { equation_number };

    fn numbered(value: NonZeroU8) -> Self {
        Equation(value)
    }

    fn number(self) -> NonZeroU8 {
        self.0
    }
}

impl Counted for Unknown {
    ghost number = { unknown_number };

    fn numbered(value: NonZeroU8) -> Self {
        Unknown(value)
    }

    fn number(self) -> NonZeroU8 {
        self.0
    }
}

// The number as a byte, or 0 where there is none.
pub fn or_zero<N: Counted>(one: Option<N>) -> u8
    ensures { result ≡ or_zero N.number one }
{
    one.map_or(0, |it| it.number().get())
}

// Their numbers alone, for whoever hands them out as bytes.
pub fn numbers<N: Counted>(list: [Option<N>; LIMIT]) -> Row
    ensures { result ≡ map (or_zero N.number) list }
{
    tabulated(
        LIMIT,
        0,
        |i| -> u8
            requires { i < limit }
            ensures { result ≡ or_zero N.number (get_or list i None) }
        { or_zero(list[i]) },
    )
}
