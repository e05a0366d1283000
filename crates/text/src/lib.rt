// The text of an answer, written into lent bytes.
#![tactic(auto)]

ghost use Rattle.std.specs.Prelude.{◌≡◌, ◌+◌, ◌*◌, ◌<◌, ◌≤◌, [], ◌∷◌, length};
ghost use Rattle.text.specs.Text.{decimal, refused_text, grade_line, forced_line, end_line, forced_at, forced, answer_text, Wrote, Shows, Written};

use field::Grade;

// Each writer is handed the index to write at and answers the one behind, as `put_bytes` and `put_decimal` do for other crates, which lend bytes that they go
// on using: a struct of the bytes and the index would be a second form beside these.
fn put(out: &mut [u8], at: usize, byte: u8) -> usize
    requires { at < length out.old }
    ensures { Wrote (byte ∷ []) out.old at out.new result }
{
    out[at] = byte;
    at + 1
}

// Writes these bytes from index `at` on, and answers the index behind them.
#[tactic(auto, using(crate::proofs::Writes::copied_in))]
pub fn put_bytes(out: &mut [u8], at: usize, text: &[u8]) -> usize
    requires { at + length text.now ≤ length out.old }
    ensures { Wrote text.now out.old at out.new result }
{
    let end = at + text.len();
    out[at..end].copy_from_slice(text);
    end
}

fn digit(n: u64) -> u8
    requires { n < 10 }
    ensures { result ≡ 48 + n }
{
    b'0' + (n as u8)
}

// The digits of a number, the highest first. It is written by hand, since the library's text of a number without a heap, `InlineText`, promises the digits
// or a text that ends in dots, and what writes by `Display` into lent bytes may refuse.
pub fn put_decimal(out: &mut [u8], at: usize, n: u64) -> usize
    requires { at + length (decimal n) ≤ length out.old }
    ensures { Wrote (decimal n) out.old at out.new result }
{
    if n < 10 {
        return put(out, at, digit(n));
    }
    let last = put_decimal(out, at, n / 10);
    put(out, last, digit(n % 10))
}

fn put_number(out: &mut [u8], at: usize, n: usize) -> usize
    requires n_bound { n < 1000 }
    requires at_in_bounds { at + 3 ≤ length out.old }
    ensures wrote { Wrote (decimal n) out.old at out.new result }
    ensures upper_bound { result ≤ at + 3 }
{
    put_decimal(out, at, n as u64)
}

fn put_grade(out: &mut [u8], at: usize, grade: Grade) -> usize
    requires { at + 14 ≤ length out.old }
    ensures wrote { Wrote (grade_line grade) out.old at out.new result }
    ensures upper_bound { result ≤ at + 14 }
{
    match grade {
        Grade::Exact => put_bytes(out, at, b"grade exact\n"),
        Grade::Inexact => put_bytes(out, at, b"grade inexact\n"),
    }
}

fn put_forced(out: &mut [u8], at: usize, variable: usize, value: u8) -> usize
    requires variable_bound { variable < 1000 }
    requires at_in_bounds { at + 10 ≤ length out.old }
    ensures wrote { Wrote (forced_line variable value) out.old at out.new result }
    ensures upper_bound { result ≤ at + 10 }
{
    let first = put_bytes(out, at, b"x ");
    let second = put_number(out, first, variable);
    let third = put(out, second, b' ');
    let fourth = put_number(out, third, usize::from(value));
    put(out, fourth, b'\n')
}

fn put_end(out: &mut [u8], at: usize, count: usize) -> usize
    requires count_bound { count < 1000 }
    requires at_in_bounds { at + 8 ≤ length out.old }
    ensures wrote { Wrote (end_line count) out.old at out.new result }
    ensures upper_bound { result ≤ at + 8 }
{
    let first = put_bytes(out, at, b"end ");
    let second = put_number(out, first, count);
    put(out, second, b'\n')
}

// How far the text goes, and how many x lines it has.
#[derive(Clone, Copy)]
struct Shown {
    at: usize,
    count: usize,
}

// The line of one variable, if it was free and is not any more.
fn put_variable(out: &mut [u8], shown: Shown, start: &[u8], values: &[u8], i: usize) -> Shown
    requires i_bound { i < 1000 }
    requires i_in_bounds { i < length start.now }
    requires i_in_bounds_2 { i < length values.now }
    requires count_le_i { shown.count ≤ i }
    requires at_in_bounds { shown.at + 10 ≤ length out.old }
    ensures { Shows values.now (forced_at start.now values.now i) out.old shown.at shown.count out.new result.at result.count 10 }
{
    if start[i] != 2 {
        return shown;
    }
    let value = values[i];
    if value == 2 {
        return shown;
    }
    let at = put_forced(out, shown.at, i, value);
    Shown {
        at,
        count: shown.count + 1,
    }
}

fn put_variables(out: &mut [u8], from: usize, start: &[u8], values: &[u8]) -> Shown
    requires start_len_bound { length start.now < 1000 }
    requires values_len { length values.now ≡ length start.now }
    requires start_in_bounds { from + 10 * length start.now ≤ length out.old }
    ensures { Shows values.now (forced start.now values.now (length start.now)) out.old from 0 out.new result.at result.count (10 * length start.now) }
{
    let mut shown = Shown { at: from, count: 0 };
    for i in 0..start.len() {
        shown = put_variable(out, shown, start, values, i);
    }
    shown
}

// The grade, an x line for each forced variable, and their count.
pub fn write_answer(grade: Grade, start: &[u8], values: &[u8], out: &mut [u8]) -> usize
    requires start_len_bound { length start.now < 1000 }
    requires values_len { length values.now ≡ length start.now }
    requires start_in_bounds { 22 + 10 * length start.now ≤ length out.old }
    ensures { Written (answer_text grade start.now values.now) out.old out.new result }
{
    let first = put_grade(out, 0, grade);
    let shown = put_variables(out, first, start, values);
    put_end(out, shown.at, shown.count)
}

// Writes `refused` with its number and the end of the line at the front, and answers how long that is.
pub fn write_refused(number: usize, out: &mut [u8]) -> usize
    requires number_bound { number < 1000 }
    requires in_bounds { 12 ≤ length out.old }
    ensures { Written (refused_text number) out.old out.new result }
{
    let first = put_bytes(out, 0, b"refused ");
    let second = put_number(out, first, number);
    put(out, second, b'\n')
}
