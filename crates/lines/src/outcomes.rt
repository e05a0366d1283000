// What a call answered, as an outcome.
ghost use Rattle.std.specs.Prelude.{◌≡◌};
ghost use Rattle.lines.specs.declared.outcomes.Undone.TheVariants.{Refusing};
ghost use Rattle.lines.specs.Outcomes.{outcome as outcome_of, refusing as refusing_by, undone_number, answered as answered_by, checked as checked_by, counted as counted_by};

use field::{Answer, Counted, Grade, Refusal};

// Whether a variable's value was given, or which of its bounds it rests on.
#[derive(Clone, Copy)]
pub enum Side {
    Given,
    Lower,
    Upper,
}

// Why a variable has its value in the closure: the side, and the bound with its unit.
#[derive(Clone, Copy)]
pub struct Reason {
    pub side: Side,
    pub unit: u8,
    pub bound: f64,
}

// What a call did: the field's grade where it has a field, the count of items, the count of pairs, of the smaller problem and of a mended list its entries, and a reason.
#[derive(Clone, Copy)]
pub struct Outcome {
    pub grade: Option<Grade>,
    pub count: usize,
    pub pairs: usize,
    pub reason: Option<Reason>,
}

// Why nothing was done: no call has the code, the call refused, or a number that is told as it is.
#[derive(Clone, Copy)]
pub enum Undone {
    Absent,
    Refusing(Refusal),
    Numbered(u32),
}

impl Undone {
    // The number of the refusal or the one that is told, and 11 where there is no call.
    pub fn number(self) -> u32
        ensures { result ≡ undone_number self }
    {
        match self {
            Undone::Absent => 11,
            Undone::Refusing(refusal) => refusal.number(),
            Undone::Numbered(number) => number,
        }
    }

    // Whether nothing that was lent has changed.
    pub(crate) fn leaves_all(self) -> bool {
        match self {
            Undone::Absent => false,
            Undone::Refusing(refusal) => match refusal {
                Refusal::Room | Refusal::Clash | Refusal::Inexact | Refusal::Unforced => false,
                _ => true,
            },
            Undone::Numbered(number) => matches!(number, 1..=8 | 14..=18),
        }
    }

    // Whether the answer list is as it was: a field that is not exact and a variable that is not forced leave it too.
    pub(crate) fn leaves_list(self) -> bool {
        match self {
            Undone::Absent => false,
            Undone::Refusing(refusal) => match refusal {
                Refusal::Room | Refusal::Clash => false,
                _ => true,
            },
            Undone::Numbered(number) => matches!(number, 1..=8 | 12..=18),
        }
    }
}

impl From<Refusal> for Undone {
    ghost from_gives = { λ refusal undone. undone ≡ Refusing refusal };

    fn from(refusal: Refusal) -> Undone {
        Undone::Refusing(refusal)
    }
}

// What a call answered.
pub type Ended = Result<Outcome, Undone>;

// What a call did that gives no reason: its grade, where it has one, and two counts.
pub fn done(grade: Option<Grade>, count: usize, pairs: usize) -> Ended
    ensures { result ≡ outcome_of grade count pairs }
{
    Ok(Outcome {
        grade,
        count,
        pairs,
        reason: None,
    })
}

// A refusal, as it is told.
pub fn refusing(refusal: Refusal) -> Ended
    ensures { result ≡ refusing_by refusal }
{
    Err(Undone::Refusing(refusal))
}

// Done with a grade, or a refusal.
pub fn answered(answer: Answer<Grade>) -> Ended
    ensures { result ≡ answered_by answer }
{
    match answer {
        Ok(grade) => done(Some(grade), 0, 0),
        Err(refusal) => refusing(refusal),
    }
}

// A refusal, or all passed.
pub fn checked(answer: Answer<()>) -> Ended
    ensures { result ≡ checked_by answer }
{
    match answer {
        Ok(()) => done(None, 0, 0),
        Err(refusal) => refusing(refusal),
    }
}

// Done with a grade and a count, or a refusal.
pub fn counted(answer: Answer<Counted>) -> Ended
    ensures { result ≡ counted_by answer }
{
    match answer {
        Ok(Counted { grade, count }) => done(Some(grade), count, 0),
        Err(refusal) => refusing(refusal),
    }
}
