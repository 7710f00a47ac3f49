// The words that every part shares: what a refusal is, a point, what a contour is and which way it is cut. A question is answered
// with a `Result`, its error a refusal. The definitions that say which of several faults is told, and where, are in specs/, with the
// laws that say exactly when, and so is what stands in a room of which the front is written.
#![tactic(auto)]

ghost use Rattle.std.specs.Prelude.{◌≡◌, Err};
ghost use Rattle.answer.specs.Code.{code_of};
ghost use Rattle.answer.specs.Fault.{number_of};
ghost use Rattle.answer.specs.Kinds.{as_type, as_preference};

// Why something goes back: the number of the fault and its place.
#[derive(Clone, Copy)]
pub struct Refusal {
    pub number: u32,
    pub place: usize,
}

// What can be wrong, as the table of refusals has it; `number` says the table's numbers.
#[derive(Clone, Copy, Debug, PartialEq, Eq)]
pub enum Fault {
    // The card: its length, a block's check or start, a field of the head, the count of blocks.
    Length,
    Check,
    Start,
    Field,
    Blocks,
    // What the blocks say: a contour, a spare byte, a coordinate, an id met before.
    Contour,
    Spare,
    Coordinate,
    RepeatedId,
    // The pairs: an id that no contour has, or half a pair; another contour's tag; a cycle.
    UnknownId,
    OtherTag,
    Cycle,
    // What is lent or asked: a room, an amount, an order or a number in it, a card that has ended, a way and what is on it.
    Room,
    Amount,
    Order,
    Ended,
    Way,
}

impl Fault {
    // The number that the table of refusals has for it. (16 is no fault yet.)
    pub fn number(self) -> u32
        ensures { result ≡ number_of self }
    {
        match self {
            Fault::Length => 1,
            Fault::Check => 2,
            Fault::Start => 3,
            Fault::Field => 4,
            Fault::Blocks => 5,
            Fault::Contour => 6,
            Fault::Spare => 7,
            Fault::Coordinate => 8,
            Fault::RepeatedId => 9,
            Fault::UnknownId => 10,
            Fault::OtherTag => 11,
            Fault::Cycle => 12,
            Fault::Room => 13,
            Fault::Amount => 14,
            Fault::Order => 15,
            Fault::Ended => 17,
            Fault::Way => 18,
        }
    }

    // Refused for it, at this place.
    pub fn at(self, place: usize) -> Refusal
        ensures { result ≡ record { number = number_of self; place = place } }
    {
        Refusal {
            number: self.number(),
            place,
        }
    }
}

// A point of the sheet, in millimetres.
#[derive(Clone, Copy, Debug, PartialEq)]
pub struct Point {
    pub x: f64,
    pub y: f64,
}

// A list in a room of fixed size: the first `count` items, the rest spare.
#[derive(Clone, Copy)]
pub struct Listed<T, const N: usize> {
    pub items: [T; N],
    pub count: usize,
}

// An outline of a part, or a hole in one.
#[derive(Clone, Copy, Debug, PartialEq, Eq)]
pub enum ContourType {
    Exterior,
    Interior,
}

// Which way round a contour is cut.
#[derive(Clone, Copy, Debug, PartialEq, Eq)]
pub enum CutDirection {
    Ccw,
    Cw,
}

// Which way round is asked for. Auto leaves it to the contour's type.
#[derive(Clone, Copy, Debug, PartialEq, Eq)]
pub enum CutDirectionPreference {
    Ccw,
    Cw,
    Auto,
}

// A contour's type by its number on a card: 0 is an exterior. On a card that was not checked any byte but 0 is a hole.
impl From<u8> for ContourType {
    ghost from_gives = { λ b t. t ≡ as_type b };

    fn from(b: u8) -> ContourType {
        if b == 0 {
            ContourType::Exterior
        } else {
            ContourType::Interior
        }
    }
}

// A direction asked for: 0 Ccw, 1 Cw, and on a card that was not checked any other byte is Auto too.
impl From<u8> for CutDirectionPreference {
    ghost from_gives = { λ b d. d ≡ as_preference b };

    fn from(b: u8) -> CutDirectionPreference {
        match b {
            0 => CutDirectionPreference::Ccw,
            1 => CutDirectionPreference::Cw,
            _ => CutDirectionPreference::Auto,
        }
    }
}

// Refused, with this number at this place.
pub fn refused(number: u32, place: usize) -> Result<(), Refusal>
    ensures { result ≡ Err (record { number = number; place = place }) }
{
    Err(Refusal { number, place })
}

// A check as the one number that a host is handed: 0, or the refusal's number times 2^32 plus its place, which is shown as
// 2^32 - 1 where it is larger. (No `From`: neither type is of this repository.)
pub fn code(c: Result<(), Refusal>) -> u64
    ensures { result ≡ code_of c }
{
    match c {
        Ok(()) => 0,
        Err(r) => u64::from(r.number) * 0x1_0000_0000 + (r.place.min(0xffff_ffff) as u64),
    }
}
