// A field's tests, grade and answers: what every call on a field asks first, and how it says what it found.
#![tactic(auto)]

mod entries;
pub mod grading;
pub mod tests;
mod weighs;

ghost use Rattle.std.specs.Prelude.{◌≡◌};
ghost use Rattle.field.specs.Answers.{number_of, position_of, answer_number};

// The four lists of a field as they are lent: the linear weights, and of each entry the row, the column and the pair weight.
#[derive(Clone, Copy)]
pub struct FieldRef<'a> {
    pub c: &'a [f64],
    pub rows: &'a [u16],
    pub cols: &'a [u16],
    pub q: &'a [f64],
}

// Whether all sums of a field's weights are exact in f64, counted in some unit of 2^-20 to 2^20.
#[derive(Clone, Copy, Debug, PartialEq, Eq)]
pub enum Grade {
    Exact,
    Inexact,
}

// The table's refusals; four name the position of the first entry at fault.
#[derive(Clone, Copy, Debug, PartialEq, Eq)]
pub enum Refusal {
    Variables,
    Lists,
    Row(usize),
    Column(usize),
    Repeat(usize),
    Order(usize),
    Diagonal,
    Weights,
    Start,
    Argument,
    Scratch,
    Room,
    Clash,
    Inexact,
    Unforced,
    Sum,
}

impl Refusal {
    // The table's number of this refusal, by which C and the record program name it.
    pub fn number(self) -> u32
        ensures { result ≡ number_of self }
    {
        match self {
            Refusal::Variables => 1,
            Refusal::Lists => 2,
            Refusal::Row(_) => 14,
            Refusal::Column(_) => 15,
            Refusal::Repeat(_) => 16,
            Refusal::Order(_) => 17,
            Refusal::Diagonal => 4,
            Refusal::Weights => 5,
            Refusal::Start => 6,
            Refusal::Argument => 7,
            Refusal::Scratch => 8,
            Refusal::Room => 9,
            Refusal::Clash => 10,
            Refusal::Inexact => 12,
            Refusal::Unforced => 13,
            Refusal::Sum => 18,
        }
    }

    // The position of the entry at fault, 0 where the refusal names none.
    pub fn position(self) -> usize
        ensures { result ≡ position_of self }
    {
        match self {
            Refusal::Row(k) => k,
            Refusal::Column(k) => k,
            Refusal::Repeat(k) => k,
            Refusal::Order(k) => k,
            _ => 0,
        }
    }
}

// What a call answers: what it finds, or the refusal of the first test that failed.
pub type Answer<T> = Result<T, Refusal>;

// The table's number of an answer: 0 where the call is done.
pub fn number<T>(answer: &Answer<T>) -> u32
    ensures { result ≡ answer_number answer.now }
{
    match answer {
        Ok(_) => 0,
        Err(refusal) => refusal.number(),
    }
}

// What a call that counts finds: the field's grade, and the count.
#[derive(Clone, Copy)]
pub struct Counted {
    pub grade: Grade,
    pub count: usize,
}
