// The answer of the call, from the tests on.
ghost use Rattle.std.specs.Prelude.{◌≡◌, ◌≤◌, ◌<◌, length};
ghost use Rattle.field.specs.Field.{given, lent, variables};
ghost use Rattle.field.specs.Grade.{unit_of, ExactIn};
ghost use Rattle.field.specs.Tests.{Ready};
ghost use Rattle.reason.specs.Stages.{threes, told, fitted, with_list, free_told, told_of};

use crate::marking::{count_marked, list_marked};
use crate::tracing::trace;
use crate::{Ground, Reasoned};
use field::{Answer, FieldRef, Refusal};

// The marked variables go into the list, if it has room.
fn fit(because: Ground, unit: u8, values: &[u8], list: &mut [u16]) -> Answer<Reasoned>
    requires { length values.now ≤ 4096 }
    ensures { told result list.new ≡ fitted because unit (threes values.now (length values.now)) list.old }
{
    let count = count_marked(values);
    if count > list.len() {
        list.fill(0);
        return Err(Refusal::Room);
    }
    list_marked(values, list);
    Ok(Reasoned {
        because,
        unit,
        count,
    })
}

// No bound is strict: the variable stays free.
fn finish(because: Ground, unit: u8, values: &[u8], list: &mut [u16]) -> Answer<Reasoned>
    requires { length values.now ≤ 4096 }
    ensures { told result list.new ≡ with_list because unit (threes values.now (length values.now)) list.old }
{
    match because {
        Ground::Given => Err(Refusal::Unforced),
        Ground::Lower(_) | Ground::Upper(_) => fit(because, unit, values, list),
    }
}

// A variable that is free in the start values.
fn answer_free(
    field: FieldRef,
    start: &[u8],
    values: &mut [u8],
    f: &mut [f64],
    u: &mut [u32],
    i: usize,
    unit: u8,
    list: &mut [u16],
) -> Answer<Reasoned>
    requires ready { Ready (lent field) start.now (length f.old) (length u.old) }
    requires exact_in { ExactIn (unit_of (lent field)) (lent field) }
    requires i_bound { i < variables (lent field) }
    requires values_len { length values.old ≡ variables (lent field) }
    ensures { told result list.new ≡ free_told (given field) start.now i unit list.old }
{
    probe::values::copy(start, values);
    let ground = trace(field, values, f, u, i, unit);
    finish(ground, unit, values, list)
}

// Answers for any variable of an exact field, and lists its neighbours where there is room.
pub fn answer(
    field: FieldRef,
    start: &[u8],
    variable: usize,
    unit: u8,
    list: &mut [u16],
    f: &mut [f64],
    u: &mut [u32],
) -> Answer<Reasoned>
    requires ready { Ready (lent field) start.now (length f.old) (length u.old) }
    requires exact_in { ExactIn (unit_of (lent field)) (lent field) }
    ensures { told result list.new ≡ told_of (given field) start.now variable unit list.old }
{
    if variable >= field.c.len() {
        return Err(Refusal::Unforced);
    }
    if start[variable] != 2 {
        return Ok(Reasoned {
            because: Ground::Given,
            unit,
            count: 0,
        });
    }
    let mut space = [2; 4096];
    answer_free(
        field,
        start,
        &mut space[..field.c.len()],
        f,
        u,
        variable,
        unit,
        list,
    )
}
