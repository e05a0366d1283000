// The tests of a single probe.
ghost use Rattle.std.specs.Prelude.{◌≡◌, length};
ghost use Rattle.field.specs.Field.{given};
ghost use Rattle.field.specs.Table.{tested};
ghost use Rattle.probe.specs.Call.{may_probe as may_probe_of, probe_tests};

use field::{Answer, FieldRef, Refusal};

// Test 7: whether the variable is there and free, and the value is 0 or 1.
pub fn may_probe(n: usize, start: &[u8], variable: usize, value: u8) -> bool
    requires { length start.now ≡ n }
    ensures { result ≡ may_probe_of n start.now variable value }
{
    if variable >= n {
        return false;
    }
    start[variable] == 2 && value <= 1
}

// Makes tests 1 to 8 of a single probe, 7 of its variable and its value among them.
pub fn ready_to_probe(
    field: FieldRef,
    start: &[u8],
    variable: usize,
    value: u8,
    floats: usize,
    words: usize,
) -> Answer<()>
    ensures { result ≡ tested (probe_tests (given field) start.now variable value floats words) }
{
    field::tests::standard(field, start)?;
    if !may_probe(field.c.len(), start, variable, value) {
        return Err(Refusal::Argument);
    }
    if !field::tests::floats_fit(field.c.len(), field.q.len(), floats) {
        return Err(Refusal::Scratch);
    }
    if !field::tests::words_fit(field.c.len(), field.q.len(), words) {
        return Err(Refusal::Scratch);
    }
    Ok(())
}
