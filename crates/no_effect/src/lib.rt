// The public call: the variables of a field that have no effect.
#![tactic(auto)]

pub mod marks;
mod putting;

ghost use Rattle.std.specs.Prelude.{◌≡◌, ◌≤◌, length};
ghost use Rattle.field.specs.Field.{lent, given, variables, Shaped};
ghost use Rattle.field.specs.Table.{tested};
ghost use Rattle.no_effect.specs.Putting.{putting};
ghost use Rattle.no_effect.specs.Effect.{found};
ghost use Rattle.no_effect.specs.Call.{left, word_tests, no_effect_call};

use field::{Answer, Counted, FieldRef, Refusal};

// 1, 2, 14 to 17 and 5, and 8 of the u32 scratch
fn tests(field: FieldRef, words: usize) -> Answer<()>
    ensures { result ≡ tested (word_tests (given field) words) }
{
    field::tests::loose(field)?;
    if !field::tests::words_fit(field.c.len(), field.q.len(), words) {
        return Err(Refusal::Scratch);
    }
    Ok(())
}

// Puts the variables of no effect at the list's front, as far as it has places, and hands back how many there are.
fn find(field: FieldRef, list: &mut [u16], u: &mut [u32]) -> usize
    requires shaped { Shaped (lent field) }
    requires q_in_bounds { variables (lent field) ≤ length u.old }
    ensures { putting list.new result ≡ found (given field) list.old }
{
    marks::mark_ends(u, field.rows, field.cols, field.c.len());
    putting::put_all(field.c, u, list)
}

// The variables with no entry and c = 0, rising, at the front of the list, and how many they are.
pub fn no_effect(field: FieldRef, list: &mut [u16], u: &mut [u32]) -> Answer<Counted>
    ensures { left result list.new u.new ≡ no_effect_call (given field) list.old u.old }
{
    tests(field, u.len())?;
    let grade = field::grading::graded(field);
    let count = find(field, list, u);
    u.fill(0);
    if count > list.len() {
        list.fill(0);
        return Err(Refusal::Room);
    }
    Ok(Counted { grade, count })
}
