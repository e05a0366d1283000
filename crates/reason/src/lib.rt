// Why a variable has its value: its ground, the values that the bound rests on, and the bound.
#![tactic(auto)]

mod answers;
pub mod halt;
pub mod marking;
pub mod tracing;

ghost use Rattle.std.specs.Prelude.{◌≡◌, length};
ghost use Rattle.field.specs.Field.{given, lent};
ghost use Rattle.field.specs.Tests.{Ready};
ghost use Rattle.reason.specs.Ground.{times as times_of, in_half_units as in_half_units_of, ground_of};
ghost use Rattle.reason.specs.Stages.{told, graded_told};
ghost use Rattle.reason.specs.Call.{left, reason_call};

use field::{Answer, FieldRef, Refusal};
use rows::{Conclusion, Verdict};

// The variable is given; or a bound, in half units, forces it: a lower one above 0, or an upper one below 0.
#[derive(Clone, Copy)]
pub enum Ground {
    Given,
    Lower(f64),
    Upper(f64),
}

// What the call finds: the ground, the unit k, which is 2^(k - 20), and how many are listed.
#[derive(Clone, Copy)]
pub struct Reasoned {
    pub because: Ground,
    pub unit: u8,
    pub count: usize,
}

// `by` times x, that many times over.
fn times(by: f64, count: u8, x: f64) -> f64
    ensures { result ≡ times_of by count x }
{
    let mut product = x;
    for _ in 0..count {
        product = by * product;
    }
    product
}

// x in half units of 2^(unit - 20), with no rounding where it is a whole number of them.
fn in_half_units(x: f64, unit: u8) -> f64
    ensures { result ≡ in_half_units_of unit x }
{
    if unit <= 21 {
        return times(2.0, 21 - unit, x);
    }
    times(0.5, unit - 21, x)
}

// The ground of a conclusion, with its bound counted in half units of 2^(unit - 20).
pub fn explain(found: Conclusion, unit: u8) -> Ground
    ensures { result ≡ ground_of unit found.verdict }
{
    match found.verdict {
        Verdict::Zero(bound) => Ground::Lower(in_half_units(bound, unit)),
        Verdict::One(bound) => Ground::Upper(in_half_units(bound, unit)),
        Verdict::Flat | Verdict::Open => Ground::Given,
    }
}

// A field that is not exact has no reasons.
fn work(
    field: FieldRef,
    start: &[u8],
    variable: usize,
    list: &mut [u16],
    f: &mut [f64],
    u: &mut [u32],
) -> Answer<Reasoned>
    requires { Ready (lent field) start.now (length f.old) (length u.old) }
    ensures { told result list.new ≡ graded_told (given field) start.now variable list.old }
{
    let unit = field::grading::least_unit(field.c, field.q);
    if unit == 41 {
        return Err(Refusal::Inexact);
    }
    answers::answer(field, start, variable, unit, list, f, u)
}

// The reason of a variable's value in the closure; a refusal by the tests changes nothing.
pub fn reason(
    field: FieldRef,
    start: &[u8],
    variable: usize,
    list: &mut [u16],
    f: &mut [f64],
    u: &mut [u32],
) -> Answer<Reasoned>
    ensures { left result list.new f.new u.new ≡ reason_call (given field) start.now variable list.old f.old u.old }
{
    field::tests::ready(field, start, f.len(), u.len())?;
    let answer = work(field, start, variable, list, f, u);
    f.fill(0.0);
    u.fill(0);
    answer
}
