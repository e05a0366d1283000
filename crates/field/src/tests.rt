// The table's tests, and the groups that calls share.
ghost use Rattle.std.specs.Prelude.{◌≡◌, ◌≤◌, length};
ghost use Rattle.field.specs.Field.{given};
ghost use Rattle.field.specs.Table.{tested};
ghost use Rattle.field.specs.Tests.{few_variables as few_variables_of, lists_match as lists_match_of, in_order as in_order_of, weights_finite as weights_finite_of, start_fits as start_fits_of, floats_fit as floats_fit_of, words_fit as words_fit_of, shape_tests, loose_tests, open_tests, standard_tests, ready_tests};

use crate::entries::{all_rise, bytes_small, ends_below, fault, off_diagonal};
use crate::weighs::all_finite;
use crate::{Answer, FieldRef, Refusal};

// Test 1: n is at most 4,096.
pub fn few_variables(n: usize) -> bool
    ensures { result ≡ few_variables_of n }
{
    n <= 4096
}

// Test 2: the three entry lists are of one length, at most 32,768.
pub fn lists_match(rows: &[u16], cols: &[u16], q: &[f64]) -> bool
    ensures { result ≡ lists_match_of rows.now cols.now q.now }
{
    if rows.len() != q.len() {
        return false;
    }
    if cols.len() != q.len() {
        return false;
    }
    q.len() <= 32768
}

// 14 to 17
fn in_order(n: usize, rows: &[u16], cols: &[u16]) -> bool
    requires { length rows.now ≡ length cols.now }
    ensures { result ≡ in_order_of n rows.now cols.now }
{
    if !ends_below(n, rows) {
        return false;
    }
    if !ends_below(n, cols) {
        return false;
    }
    all_rise(rows, cols)
}

// Test 5: every linear weight and every pair weight is finite.
pub fn weights_finite(c: &[f64], q: &[f64]) -> bool
    ensures { result ≡ weights_finite_of c.now q.now }
{
    if !all_finite(c) {
        return false;
    }
    all_finite(q)
}

// Test 6: the start values are n bytes, none of them above 2.
pub fn start_fits(n: usize, start: &[u8]) -> bool
    ensures { result ≡ start_fits_of n start.now }
{
    if start.len() != n {
        return false;
    }
    bytes_small(start)
}

// Test 8 of the f64 scratch: it has 8n+4m+16 elements or more.
pub fn floats_fit(n: usize, m: usize, floats: usize) -> bool
    requires { (n ≤ 4096) × (m ≤ 65536) }
    ensures { result ≡ floats_fit_of n m floats }
{
    8 * n + 4 * m + 16 <= floats
}

// Test 8 of the u32 scratch: it has 16n+8m+16 elements or more.
pub fn words_fit(n: usize, m: usize, words: usize) -> bool
    requires { (n ≤ 4096) × (m ≤ 65536) }
    ensures { result ≡ words_fit_of n m words }
{
    16 * n + 8 * m + 16 <= words
}

// 1, 2 and 14 to 17; where a fault is looked for, the entries are known to have one
pub fn shape(field: FieldRef) -> Answer<()>
    ensures { result ≡ tested (shape_tests (given field)) }
{
    if !few_variables(field.c.len()) {
        return Err(Refusal::Variables);
    }
    if !lists_match(field.rows, field.cols, field.q) {
        return Err(Refusal::Lists);
    }
    if !in_order(field.c.len(), field.rows, field.cols) {
        return Err(fault(field.c.len(), field.rows, field.cols));
    }
    Ok(())
}

// These and 5, for the calls that allow a diagonal
pub fn loose(field: FieldRef) -> Answer<()>
    ensures { result ≡ tested (loose_tests (given field)) }
{
    shape(field)?;
    if !weights_finite(field.c, field.q) {
        return Err(Refusal::Weights);
    }
    Ok(())
}

// These, 6 and 8, for those of them that work from start values in scratch
pub fn admitted(field: FieldRef, start: &[u8], floats: usize, words: usize) -> Answer<()>
    ensures { result ≡ tested (open_tests (given field) start.now floats words) }
{
    loose(field)?;
    if !start_fits(field.c.len(), start) {
        return Err(Refusal::Start);
    }
    if !floats_fit(field.c.len(), field.q.len(), floats) {
        return Err(Refusal::Scratch);
    }
    if !words_fit(field.c.len(), field.q.len(), words) {
        return Err(Refusal::Scratch);
    }
    Ok(())
}

// Makes tests 1, 2, 14 to 17, and 4 to 6, in this order; the first that fails is answered.
pub fn standard(field: FieldRef, start: &[u8]) -> Answer<()>
    ensures { result ≡ tested (standard_tests (given field) start.now) }
{
    shape(field)?;
    if !off_diagonal(field.rows, field.cols) {
        return Err(Refusal::Diagonal);
    }
    if !weights_finite(field.c, field.q) {
        return Err(Refusal::Weights);
    }
    if !start_fits(field.c.len(), start) {
        return Err(Refusal::Start);
    }
    Ok(())
}

// Makes all the tests of a field in standard form, its start values and both scratches, 8 as the last.
pub fn ready(field: FieldRef, start: &[u8], floats: usize, words: usize) -> Answer<()>
    ensures { result ≡ tested (ready_tests (given field) start.now floats words) }
{
    standard(field, start)?;
    if !floats_fit(field.c.len(), field.q.len(), floats) {
        return Err(Refusal::Scratch);
    }
    if !words_fit(field.c.len(), field.q.len(), words) {
        return Err(Refusal::Scratch);
    }
    Ok(())
}
