// What the card is refused for, and where.
ghost use Rattle.std.specs.Prelude.{◌≡◌};
ghost use Rattle.card.specs.Refusal.{refusal_number, refused_at};

#[derive(Clone, Copy, PartialEq, Eq)]
pub enum Refusal {
    // the line due here has another shape
    Shape,
    // the name is empty, too long or has another byte
    Name,
    // equations or unknowns are not 1 to 32
    Limits,
    // e is above E or 0, u above U or 0, or k above 3
    OutOfRange,
    // this pair equals or precedes the one before
    NotAfter,
    // the end line's number is not the number of occurs lines
    EndNumber,
    // the table buffer is below E × U
    TableRoom,
    // the card buffer is shorter than the card
    CardRoom,
    // the table's length is not E × U
    TableLength,
    // a code is above 4
    Code,
}

// A refusal and its place.
// Kept (point 1): place 0 with the refusals that have none, for document 01 hands out 0 there.
#[derive(Clone, Copy, PartialEq, Eq)]
pub struct Refused {
    pub refusal: Refusal,
    pub place: usize,
}

impl Refusal {
    // Kept (point 4): no `From<Refusal> for u8`, which would be the same `match`; the numbers stand in the definition (document 01).
    pub fn number(self) -> u8
        ensures { result ≡ refusal_number self }
    {
        match self {
            Refusal::TableLength => 2,
            Refusal::Code => 4,
            Refusal::Shape => 11,
            Refusal::Name => 12,
            Refusal::Limits => 13,
            Refusal::OutOfRange => 14,
            Refusal::NotAfter => 15,
            Refusal::EndNumber => 16,
            Refusal::TableRoom => 17,
            Refusal::CardRoom => 18,
        }
    }

    pub fn at(self, place: usize) -> Refused
        ensures { result ≡ refused_at self place }
    {
        Refused {
            refusal: self,
            place,
        }
    }
}
