// The tests of the four calls.
ghost use Rattle.std.specs.Prelude.{◌≡◌, length};
ghost use Rattle.field.specs.Field.{given};
ghost use Rattle.field.specs.Table.{tested};
ghost use Rattle.kept.specs.Calls.{record_tests, lent_tests, pin_tests, may_release as may_release_of, release_tests};

use field::{Answer, FieldRef, Refusal};
use probe::testing::may_probe;

// 1 to 6
fn recorded(field: FieldRef, values: &[u8], bounds: usize) -> Answer<()>
    ensures { result ≡ tested (record_tests (given field) values.now bounds) }
{
    field::tests::standard(field, values)?;
    if bounds != field.c.len() + field.c.len() {
        return Err(Refusal::Start);
    }
    Ok(())
}

// Makes the tests of `make` and `close`: 1 to 6 of field, values and bounds, then 8.
pub fn lendable(
    field: FieldRef,
    values: &[u8],
    bounds: usize,
    floats: usize,
    words: usize,
) -> Answer<()>
    ensures { result ≡ tested (lent_tests (given field) values.now bounds floats words) }
{
    recorded(field, values, bounds)?;
    if !field::tests::floats_fit(field.c.len(), field.q.len(), floats) {
        return Err(Refusal::Scratch);
    }
    if !field::tests::words_fit(field.c.len(), field.q.len(), words) {
        return Err(Refusal::Scratch);
    }
    Ok(())
}

// 7, of a variable to release
fn may_release(n: usize, values: &[u8], variable: usize) -> bool
    requires { length values.now ≡ n }
    ensures { result ≡ may_release_of n values.now variable }
{
    variable < n && values[variable] != 2
}

// Makes the tests of `pin`: 1 to 6 of field, values and bounds, then 7 of the variable and the value.
pub fn pinnable(
    field: FieldRef,
    values: &[u8],
    bounds: usize,
    variable: usize,
    value: u8,
) -> Answer<()>
    ensures { result ≡ tested (pin_tests (given field) values.now bounds variable value) }
{
    recorded(field, values, bounds)?;
    if !may_probe(field.c.len(), values, variable, value) {
        return Err(Refusal::Argument);
    }
    Ok(())
}

// Makes the tests of `release`: 1 to 6 of field, values and bounds, then 7 of the variable.
pub fn releasable(field: FieldRef, values: &[u8], bounds: usize, variable: usize) -> Answer<()>
    ensures { result ≡ tested (release_tests (given field) values.now bounds variable) }
{
    recorded(field, values, bounds)?;
    if !may_release(field.c.len(), values, variable) {
        return Err(Refusal::Argument);
    }
    Ok(())
}
