// Tests 1, 6, 7 and 8, in this order.
ghost use Rattle.std.specs.Prelude.{◌≡◌, ◌+◌, ◌*◌, ◌<◌};
ghost use Rattle.meaning.specs.Records.{record_on};
ghost use Rattle.field.specs.Table.{tested};
ghost use Rattle.propagation.specs.Tests.{fits as fits_in, all_fit, constraints_fit as constraints_fit_of, propagation_tests};

use field::{Answer, Refusal};

// Whether three numbers are a record of two variables in rising order, with a set of one to four pairs.
fn fits(n: usize, lower: usize, higher: usize, set: usize) -> bool
    ensures { result ≡ fits_in n (record_on lower higher set) }
{
    if set == 0 {
        return false;
    }
    if set > 15 {
        return false;
    }
    if lower >= higher {
        return false;
    }
    higher < n
}

// Whether every three numbers of the list are one.
fn all_fit(n: usize, list: &[u16]) -> bool
    ensures { result ≡ all_fit n list.now }
{
    let (records, _) = list.as_chunks::<3>();
    for record in records {
        let lower = usize::from(record[0]);
        let higher = usize::from(record[1]);
        let set = usize::from(record[2]);
        if !fits(n, lower, higher, set) {
            return false;
        }
    }
    true
}

// Test 7: whole records, at most 65,536, each with a set of 1 to 15 and rising ends below n.
pub fn constraints_fit(n: usize, list: &[u16]) -> bool
    ensures { result ≡ constraints_fit_of n list.now }
{
    if list.len() > 196608 {
        return false;
    }
    if list.len() % 3 != 0 {
        return false;
    }
    all_fit(n, list)
}

// Makes tests 1, 6, 7 and 8 of `propagate`, in this order.
pub fn ready(start: &[u8], list: &[u16], words: usize) -> Answer<()>
    ensures { result ≡ tested (propagation_tests start.now list.now words) }
{
    let n = start.len();
    if !field::tests::few_variables(n) {
        return Err(Refusal::Variables);
    }
    if !field::tests::start_fits(n, start) {
        return Err(Refusal::Start);
    }
    if !constraints_fit(n, list) {
        return Err(Refusal::Argument);
    }
    if !field::tests::words_fit(n, list.len() / 3, words) {
        return Err(Refusal::Scratch);
    }
    Ok(())
}
