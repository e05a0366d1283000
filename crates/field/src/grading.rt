// The grade of a field, and the smallest unit that serves.
ghost use Rattle.std.specs.Prelude.{◌≡◌, [], ◌+◌, ◌<◌, ◌^◌};
ghost use Rattle.field.specs.Field.{given, lent, field_of};
ghost use Rattle.field.specs.Tests.{Finite, Loose};
ghost use Rattle.field.specs.Grade.{grade_of, unit_of};
ghost use Rattle.field.specs.Measure.{First};

use crate::entries::off_diagonal;
use crate::weighs::{Measure, measured};
use crate::{FieldRef, Grade};

// 2^52, and all digits below it
const LEADING: u64 = 4503599627370496;

const BELOW: u64 = 4503599627370495;

// The halves of the finest unit, 2^-20, and of the one above the coarsest, 2^21.
const FINEST: u64 = 1053;

const NONE: u64 = 1094;

// The smallest of which no weight is above 2^31, if all weights are whole in it.
fn first_unit(linear: Measure, quad: Measure) -> u64
    requires { (linear.size < 2 ^ 63) × (quad.size < 2 ^ 63) }
    ensures { First linear.beyond linear.size quad.beyond quad.size result }
{
    let linear_least = (linear.size + BELOW) / LEADING + 20;
    let quad_least = (quad.size + BELOW) / LEADING + 19;
    let u = linear_least.max(quad_least).max(FINEST);
    if NONE <= u {
        return NONE;
    }
    if linear.beyond <= u {
        return NONE;
    }
    if quad.beyond <= u + 1 {
        return NONE;
    }
    u
}

fn half_unit(c: &[f64], q: &[f64]) -> u64
    requires { Finite (field_of c.now [] [] q.now) }
    ensures { result ≡ unit_of (field_of c.now [] [] q.now) }
{
    let linear = measured(c);
    let quad = measured(q);
    first_unit(linear, quad)
}

// The smallest unit that serves is 2^(k - 20); k is 41 where none does.
pub fn least_unit(c: &[f64], q: &[f64]) -> u8
    requires { Finite (field_of c.now [] [] q.now) }
    ensures { result + 1053 ≡ unit_of (field_of c.now [] [] q.now) }
{
    (half_unit(c, q) - FINEST) as u8
}

// Exact where no entry is on the diagonal, and every 2c and every q is a whole number of one unit of 2^-20 to 2^20, none above 2^31 of it.
pub fn graded(field: FieldRef) -> Grade
    requires { Loose (lent field) }
    ensures { result ≡ grade_of (given field) }
{
    if !off_diagonal(field.rows, field.cols) {
        return Grade::Inexact;
    }
    if half_unit(field.c, field.q) == NONE {
        return Grade::Inexact;
    }
    Grade::Exact
}
