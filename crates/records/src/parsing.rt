// The field at the front of an input, up to its ZZ.
ghost use Rattle.std.specs.Prelude.{◌≡◌, ◌≤◌};
ghost use Rattle.records.specs.declared.Record.TheVariants.{Weight, Entry, Given};
ghost use Rattle.records.specs.Parsing.{told_by, SameLent, Room, Parses, noted, note as note_of};

use crate::{Cursor, Record};
use std::ops::ControlFlow;

// The lists that a field is read into: its linear weights, the rows, columns and weights of its entries, and the start values.
#[derive(Drop)]
pub struct Lists<'a> {
    pub c: &'a mut [f64],
    pub rows: &'a mut [u16],
    pub cols: &'a mut [u16],
    pub q: &'a mut [f64],
    pub start: &'a mut [u8],
}

// A field at the front of an input: how many linear weights and entries it has, and the index behind its ZZ.
#[derive(Clone, Copy)]
pub struct Parsed {
    pub variables: usize,
    pub entries: usize,
    pub end: usize,
}

// Where the next record stands, and how many weights and entries came before it.
#[derive(Clone, Copy)]
struct Tally {
    at: usize,
    variables: usize,
    entries: usize,
}

// After a record: on to the next one, or the answer, which is none where the record is malformed or not allowed.
type Turn = ControlFlow<Option<Parsed>, Tally>;

// VC: the weight of the next variable, which is free.
#[tactic(auto, unfolding(crate::specs::Parsing::note))]
fn declare(x: f64, next: Cursor, t: Tally, lists: &mut Lists) -> Turn
    requires { Room (told_by lists.old) }
    ensures same_lent { SameLent lists.old lists.new }
    ensures noted { noted result (told_by lists.new) ≡ note_of (Weight x next) t (told_by lists.old) }
{
    let n = t.variables;
    if n >= 256 {
        return ControlFlow::Break(None);
    }
    lists.c[n] = x;
    lists.start[n] = 2;
    ControlFlow::Continue(Tally {
        at: next.at,
        variables: n + 1,
        entries: t.entries,
    })
}

// QE: the next entry.
#[tactic(auto, unfolding(crate::specs::Parsing::note))]
fn enter(row: u16, col: u16, x: f64, next: Cursor, t: Tally, lists: &mut Lists) -> Turn
    requires { Room (told_by lists.old) }
    ensures same_lent { SameLent lists.old lists.new }
    ensures noted { noted result (told_by lists.new) ≡ note_of (Entry row col x next) t (told_by lists.old) }
{
    let m = t.entries;
    if m >= 1024 {
        return ControlFlow::Break(None);
    }
    lists.rows[m] = row;
    lists.cols[m] = col;
    lists.q[m] = x;
    ControlFlow::Continue(Tally {
        at: next.at,
        variables: t.variables,
        entries: m + 1,
    })
}

// FX: the value of a declared variable that has none yet.
#[tactic(auto, unfolding(crate::specs::Parsing::note))]
fn give(variable: u16, value: u8, next: Cursor, t: Tally, lists: &mut Lists) -> Turn
    requires room { Room (told_by lists.old) }
    requires variables_bound { t.variables ≤ 256 }
    ensures same_lent { SameLent lists.old lists.new }
    ensures noted { noted result (told_by lists.new) ≡ note_of (Given variable value next) t (told_by lists.old) }
{
    let v = usize::from(variable);
    let n = t.variables;
    if v >= n {
        return ControlFlow::Break(None);
    }
    if lists.start[v] != 2 {
        return ControlFlow::Break(None);
    }
    if value > 1 {
        return ControlFlow::Break(None);
    }
    lists.start[v] = value;
    ControlFlow::Continue(Tally {
        at: next.at,
        variables: n,
        entries: t.entries,
    })
}

// One record's part in the lists.
#[tactic(auto, unfolding(crate::specs::Parsing::note))]
fn note(found: Record, t: Tally, lists: &mut Lists) -> Turn
    requires room { Room (told_by lists.old) }
    requires variables_bound { t.variables ≤ 256 }
    ensures same_lent { SameLent lists.old lists.new }
    ensures noted { noted result (told_by lists.new) ≡ note_of found t (told_by lists.old) }
{
    match found {
        Record::Weight(x, next) => declare(x, next, t, lists),
        Record::Entry(row, col, x, next) => enter(row, col, x, next, t, lists),
        Record::Given(variable, value, next) => give(variable, value, next, t, lists),
        Record::End(next) => ControlFlow::Break(Some(Parsed {
            variables: t.variables,
            entries: t.entries,
            end: next.at,
        })),
        Record::Malformed => ControlFlow::Break(None),
    }
}

// The field at the front of the lists, or none where the input is malformed; start values that no record gives are 2.
pub fn parse(bytes: &[u8], lists: &mut Lists) -> Option<Parsed>
    requires { Room (told_by lists.old) }
    ensures same_lent { SameLent lists.old lists.new }
    ensures parses { Parses bytes.now (told_by lists.old) result (told_by lists.new) }
{
    let mut t = Tally {
        at: 0,
        variables: 0,
        entries: 0,
    };
    loop {
        let found = Cursor { at: t.at }.read(bytes);
        match note(found, t, lists) {
            ControlFlow::Continue(next) => t = next,
            ControlFlow::Break(parsed) => return parsed,
        }
    }
}
