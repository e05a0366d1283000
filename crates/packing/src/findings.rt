// What each call finds, in the three parts that its number has beside the refusal.
ghost use Rattle.std.specs.Prelude.{◌≡◌};
ghost use Rattle.packing.specs.Layout.{grade_number as grade_number_of, graded as graded_of, ground_number as ground_number_of, parts_of_nothing, parts_of_grade, parts_of_counted, parts_of_paired, parts_of_reasoned, parts_of_reduced, parts_of_mended, parts_of_allowed};

use allow::Allowed;
use field::{Counted, Grade};
use mend::Mended;
use pairs::Paired;
use reason::{Ground, Reasoned};
use sub_problem::Reduced;

// The parts of what a call finds: a byte for the grade, a count, and what stands where `pairs` has the pairs examined.
#[derive(Clone, Copy)]
pub struct Parts {
    pub grade: u8,
    pub count: usize,
    pub more: usize,
}

// What a call finds, which has a place in one number. It is no From: of that a contract knows a relation alone, and `pack` names the parts as a function.
pub trait Found {
    ghost use Rattle.packing.specs.declared.findings.Parts.{Parts};

    ghost in_parts: { Self → Parts };

    // The parts of what is found.
    fn parts(self) -> Parts
        ensures { result ≡ in_parts self };
}

// A From of a grade could stand in `field` alone, which knows no layout.
fn grade_number(grade: Grade) -> u8
    ensures { result ≡ grade_number_of grade }
{
    match grade {
        Grade::Inexact => 0,
        Grade::Exact => 1,
    }
}

// The parts of what has a grade.
fn graded(grade: Grade, count: usize, more: usize) -> Parts
    ensures { result ≡ graded_of grade count more }
{
    Parts {
        grade: grade_number(grade),
        count,
        more,
    }
}

// A From of a ground could stand in `reason` alone, which knows no layout.
fn ground_number(ground: Ground) -> usize
    ensures { result ≡ ground_number_of ground }
{
    match ground {
        Ground::Given => 0,
        Ground::Lower(_) => 1,
        Ground::Upper(_) => 2,
    }
}

// A call that finds nothing has no part.
impl Found for () {
    ghost in_parts = { parts_of_nothing };

    fn parts(self) -> Parts {
        Parts {
            grade: 0,
            count: 0,
            more: 0,
        }
    }
}

// A grade alone.
impl Found for Grade {
    ghost in_parts = { parts_of_grade };

    fn parts(self) -> Parts {
        graded(self, 0, 0)
    }
}

// A grade and a count, as `closure` gives.
impl Found for Counted {
    ghost in_parts = { parts_of_counted };

    fn parts(self) -> Parts {
        graded(self.grade, self.count, 0)
    }
}

// The records found and the pairs examined.
impl Found for Paired {
    ghost in_parts = { parts_of_paired };

    fn parts(self) -> Parts {
        graded(self.grade, self.items, self.pairs)
    }
}

// The ground and the unit stand where `pairs` has the pairs examined; a reason is of an exact field.
impl Found for Reasoned {
    ghost in_parts = { parts_of_reasoned };

    fn parts(self) -> Parts {
        let more = 4 * (self.unit as usize) + ground_number(self.because);
        Parts {
            grade: 1,
            count: self.count,
            more,
        }
    }
}

// The new m, and the new n.
impl Found for Reduced {
    ghost in_parts = { parts_of_reduced };

    fn parts(self) -> Parts {
        graded(self.grade, self.entries, self.variables)
    }
}

// The new m, and the changes.
impl Found for Mended {
    ghost in_parts = { parts_of_mended };

    fn parts(self) -> Parts {
        graded(self.grade, self.entries, self.changes)
    }
}

// Yes is 1 where a field's grade stands elsewhere, and no is 0, with the variable that it names as the count.
impl Found for Allowed {
    ghost in_parts = { parts_of_allowed };

    fn parts(self) -> Parts {
        match self {
            Allowed::Yes => Parts {
                grade: 1,
                count: 0,
                more: 0,
            },
            Allowed::No(variable) => Parts {
                grade: 0,
                count: variable,
                more: 0,
            },
        }
    }
}
