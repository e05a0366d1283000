// The tally of many fields: what each adds to eight totals, one field a step, and the text of the totals.
#![tactic(auto)]

mod counting;
mod writing;

ghost use Rattle.std.specs.Prelude.{◌≡◌, ◌≤◌, length, take};
ghost use Rattle.field.specs.Field.{lent, given};
ghost use Rattle.records.specs.Parsing.{told_by, Room};
ghost use Rattle.answering.specs.Answer.{Fronted, front_field};
ghost use Rattle.tally.specs.Pieces.{fault};
ghost use Rattle.tally.specs.Tally.{none, largest as largest_of, is_within as is_within_of, plus as plus_of, counts_of, met, added, stepped, Small};
ghost use Rattle.tally.specs.Counting.{Lends, Kept, read_counts, field_counts, Few, SmallMet};

use counting::count;
use field::{Counted, FieldRef, Grade};
use records::parsing::{Lists, Parsed, parse};
use std::ops::ControlFlow;
use text::put_bytes;
pub use writing::write;

// How many fields were read, exact, inexact and refused, and how many variables of those that were read are given, forced to 0, forced to 1 and free at the end.
#[derive(Clone, Copy)]
pub struct Totals {
    pub read: u64,
    pub exact: u64,
    pub inexact: u64,
    pub refused: u64,
    pub given: u64,
    pub zero: u64,
    pub one: u64,
    pub free: u64,
}

// How the reading ends: behind a ZZ or on an empty input, at a malformed record, or before a total would pass the limit.
#[derive(Clone, Copy)]
pub enum Ending {
    Whole,
    Malformed,
    Full,
}

// How a reading ended, and the totals of what was read.
#[derive(Clone, Copy)]
pub struct Tally {
    pub ending: Ending,
    pub totals: Totals,
}

// How far a reading has come: the totals, and the index behind what was read or how many bytes are held.
#[derive(Clone, Copy)]
pub struct Reached {
    pub totals: Totals,
    pub at: usize,
}

// After a part of a reading: on from where it has come, or its tally.
pub type Turn = ControlFlow<Tally, Reached>;

// The totals before the first field.
pub fn nothing() -> Totals
    ensures { result ≡ none }
{
    Totals {
        read: 0,
        exact: 0,
        inexact: 0,
        refused: 0,
        given: 0,
        zero: 0,
        one: 0,
        free: 0,
    }
}

// What a field adds that is read.
fn read_field(grade: Grade, start: &[u8], values: &[u8]) -> Totals
    requires values_len { length values.now ≡ length start.now }
    requires start_len_bound { length start.now ≤ 256 }
    ensures { result ≡ read_counts grade start.now values.now }
{
    let fates = count(start, values);
    let read = Totals {
        read: 1,
        given: fates.given,
        zero: fates.zero,
        one: fates.one,
        free: fates.free,
        ..nothing()
    };
    match grade {
        Grade::Exact => Totals { exact: 1, ..read },
        Grade::Inexact => Totals { inexact: 1, ..read },
    }
}

fn refused_field() -> Totals
    ensures { result ≡ counts_of fault }
{
    Totals {
        refused: 1,
        ..nothing()
    }
}

// The closure works on a copy: the start values say which variables were given.
fn count_field(
    field: FieldRef,
    start: &[u8],
    values: &mut [u8],
    f: &mut [f64],
    u: &mut [u32],
) -> Totals
    requires { Lends (lent field) start.now (length values.old) (length f.old) (length u.old) }
    ensures { result ≡ field_counts (given field) start.now }
{
    put_bytes(values, 0, start);
    let answer = closure::closure(field, values, f, u);
    match answer {
        Ok(Counted { grade, .. }) => read_field(grade, start, values),
        Err(_) => refused_field(),
    }
}

// What the field at the front of the lists adds; the scratch is lent as far as the closure asks, so that a small field costs little.
fn count_found(
    lists: &Lists,
    found: Parsed,
    values: &mut [u8],
    f: &mut [f64],
    u: &mut [u32],
) -> Totals
    requires fronted { Fronted found.variables found.entries (told_by lists.now) }
    requires few { Few (length values.old) (length f.old) (length u.old) }
    ensures { result ≡ field_counts (front_field found.variables found.entries (told_by lists.now)) (take found.variables lists.now.start.now) }
{
    let n = found.variables;
    let m = found.entries;
    let floats = 8 * n + 4 * m + 16;
    let words = 16 * n + 8 * m + 16;
    count_field(
        FieldRef {
            c: &lists.c[..n],
            rows: &lists.rows[..m],
            cols: &lists.cols[..m],
            q: &lists.q[..m],
        },
        &lists.start[..n],
        &mut values[..n],
        &mut f[..floats],
        &mut u[..words],
    )
}

// The field at the front of the bytes, with what it adds and the index behind its ZZ, or none where the bytes are malformed.
fn meet(
    bytes: &[u8],
    lists: &mut Lists,
    values: &mut [u8],
    f: &mut [f64],
    u: &mut [u32],
) -> Option<Reached>
    requires room { Room (told_by lists.old) }
    requires few { Few (length values.old) (length f.old) (length u.old) }
    ensures met { result ≡ met bytes.now }
    ensures kept { Kept lists.old lists.new }
{
    let found = parse(bytes, lists)?;
    let totals = count_found(lists, found, values, f, u);
    Some(Reached {
        totals,
        at: found.end,
    })
}

fn largest(t: Totals) -> u64
    ensures { result ≡ largest_of t }
{
    let fields = t.read.max(t.exact).max(t.inexact.max(t.refused));
    let variables = t.given.max(t.zero).max(t.one.max(t.free));
    fields.max(variables)
}

fn is_within(t: Totals, most: u64) -> bool
    ensures { result ≡ is_within_of most t }
{
    largest(t) <= most
}

fn plus(t: Totals, more: Totals) -> Totals
    requires small { Small t }
    requires small_2 { Small more }
    ensures { result ≡ plus_of t more }
{
    Totals {
        read: t.read + more.read,
        exact: t.exact + more.exact,
        inexact: t.inexact + more.inexact,
        refused: t.refused + more.refused,
        given: t.given + more.given,
        zero: t.zero + more.zero,
        one: t.one + more.one,
        free: t.free + more.free,
    }
}

// The totals with one field more, unless one of them would pass `most`.
fn add(found: Option<Reached>, t: Totals, most: u64) -> Turn
    requires small { Small t }
    requires small_met { SmallMet found }
    ensures { result ≡ added most t found }
{
    let full = ControlFlow::Break(Tally {
        ending: Ending::Full,
        totals: t,
    });
    match found {
        Some(field) => {
            let totals = plus(t, field.totals);
            if is_within(totals, most) {
                return ControlFlow::Continue(Reached {
                    totals,
                    at: field.at,
                });
            }
            full
        }
        None => {
            let totals = plus(t, refused_field());
            if is_within(totals, most) {
                return ControlFlow::Break(Tally {
                    ending: Ending::Malformed,
                    totals,
                });
            }
            full
        }
    }
}

// One field more: the totals with it and the index behind its ZZ, or how the reading ends.
pub fn step(
    bytes: &[u8],
    lists: &mut Lists,
    values: &mut [u8],
    f: &mut [f64],
    u: &mut [u32],
    t: Totals,
    most: u64,
) -> Turn
    requires room { Room (told_by lists.old) }
    requires few { Few (length values.old) (length f.old) (length u.old) }
    requires small { Small t }
    ensures stepped { result ≡ stepped most t bytes.now }
    ensures kept { Kept lists.old lists.new }
{
    let found = meet(bytes, lists, values, f, u);
    add(found, t, most)
}
