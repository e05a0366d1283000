// The walk over the free pairs in rising order, and the list of the records that they give.
ghost use Rattle.std.specs.Prelude.{◌≡◌, true, cond, map, ◌+◌, ◌<◌, ◌≤◌, eqb, length};
ghost use Rattle.meaning.specs.Kinds.{pair};
ghost use Rattle.meaning.specs.Free.{is_free};
ghost use Rattle.field.specs.Field.{given, lent, variables};
ghost use Rattle.margins.specs.Model.{sum_kinds, diff_kinds, signs_of, pair_signs, tolerance as tolerance_of};
ghost use Rattle.pairs.specs.Listing.{allowed, record_for, pair_records, first_key, standing, Appended};
ghost use Rattle.pairs.specs.Walk.{Prepared, free_at, Freed, next_of, is_left as is_left_of, Walked};

use constraints::Kind;
use constraints::keys::{key, put_key};
use field::FieldRef;
use margins::bounds::{Bounds, Sign, judged, tolerance};
use margins::walking::{Walk, walk_rows, weight_of};

// Two positions in the list of free variables.
#[derive(Clone, Copy)]
pub struct Cursor {
    pub first: usize,
    pub second: usize,
}

// How many pairs were examined, and how many records they gave.
#[derive(Clone, Copy)]
pub struct Tally {
    pub pairs: usize,
    pub items: usize,
}

// 1 for a free variable.
fn counted(value: u8) -> usize
    ensures value { result ≡ cond (eqb value 2) 1 0 }
    ensures upper_bound { result ≤ 1 }
{
    usize::from(value == 2)
}

// The free variables, rising, from `base` on; how many there are.
pub fn list_free(values: &[u8], u: &mut [u32], base: usize) -> usize
    requires values_len_bound { length values.now ≤ 4096 }
    requires values_in_bounds { base + length values.now ≤ length u.old }
    ensures { Freed values.now base (length values.now) u.old u.new result }
{
    let mut count = 0;
    for (i, value) in values.iter().enumerate() {
        u[base + count] = i as u32;
        count += counted(*value);
    }
    count
}

// The bounds of the pair, or those at which no constraint was possible any more.
fn pair_bounds(
    field: FieldRef,
    values: &[u8],
    f: &[f64],
    u: &[u32],
    i: usize,
    j: usize,
    t: f64,
) -> Bounds
    requires prepared { Prepared (lent field) values.now f.now u.now }
    requires i_bound { (i < variables (lent field)) × (j < variables (lent field)) }
    requires i_value { (is_free values.now i ≡ true) × (is_free values.now j ≡ true) }
    requires t_value { t ≡ tolerance_of (lent field) i j }
    ensures { signs_of t result ≡ pair_signs (given field) values.now i j }
{
    let n = field.c.len();
    let ends = n + 1 + 2 * field.rows.len();
    let base = ends + n;
    let top = n + n;
    let keys = &u[base..];
    let weights = &f[top..];
    let left = u[i] as usize;
    let right = u[j] as usize;
    let ei = u[ends + i] as usize;
    let ej = u[ends + j] as usize;
    let edge = weight_of(keys, weights, left, ei, j);
    let bounds = Bounds::start(f[i], f[j], edge);
    walk_rows(
        keys,
        weights,
        ei,
        ej,
        i,
        j,
        t,
        Walk {
            left,
            right,
            bounds,
        },
    )
}

// The record of a number behind those that are there, where the list has room; 0 stands for none. The number of the next.
fn append(list: &mut [u16], at: usize, key: u32) -> usize
    requires at_bound { at ≤ 250000 }
    requires key_bound { key < 268435456 }
    ensures { Appended (standing key) list.old at list.new result }
{
    if key == 0 {
        return at;
    }
    if at >= list.len() / 3 {
        return at + 1;
    }
    put_key(list, at, key);
    at + 1
}

// The number of what f at 11 less f at 00 gives, or 0.
fn sum_key(i: u16, j: u16, sign: Sign) -> u32
    requires i_bound { i < 4096 }
    requires j_bound { j < 4096 }
    ensures { result ≡ first_key (map (record_for i j) (sum_kinds sign)) }
{
    match sign {
        Sign::Above => key(i, j, Kind::NoMoreThanOne),
        Sign::Below => key(i, j, Kind::AtLeastOne),
        Sign::Neither => 0,
    }
}

// The number of what f at 10 less f at 01 gives, or 0.
fn diff_key(i: u16, j: u16, sign: Sign) -> u32
    requires i_bound { i < 4096 }
    requires j_bound { j < 4096 }
    ensures { result ≡ first_key (map (record_for i j) (diff_kinds sign)) }
{
    match sign {
        Sign::Above => key(i, j, Kind::LessThan),
        Sign::Below => key(i, j, Kind::GreaterThan),
        Sign::Neither => 0,
    }
}

// One pair: what it gives goes behind what is there, in one record; the number of the next.
fn append_pair(
    field: FieldRef,
    values: &[u8],
    f: &[f64],
    u: &[u32],
    list: &mut [u16],
    at: usize,
    i: usize,
    j: usize,
) -> usize
    requires prepared { Prepared (lent field) values.now f.now u.now }
    requires i_bound { (i < variables (lent field)) × (j < variables (lent field)) }
    requires i_value { (is_free values.now i ≡ true) × (is_free values.now j ≡ true) }
    requires at_bound { at ≤ 250000 }
    ensures { Appended (pair_records (given field) values.now (pair i j)) list.old at list.new result }
{
    let n = field.c.len();
    let t = tolerance(f[n + i], f[n + j]);
    let bounds = pair_bounds(field, values, f, u, i, j, t);
    let sum = judged(bounds.sumLow, bounds.sumHigh, t);
    let diff = judged(bounds.diffLow, bounds.diffHigh, t);
    let a = sum_key(i as u16, j as u16, sum);
    let b = diff_key(i as u16, j as u16, diff);
    append(list, at, b | a)
}

impl Cursor {
    // The pair after this one, of k free variables.
    fn after(self, k: usize) -> Cursor
        requires k_bound { (k ≤ 4096) × (self.first < self.second) }
        requires second_lt_k { self.second < k }
        ensures { result ≡ next_of k self }
    {
        let first = self.first;
        let second = self.second;
        if second + 1 < k {
            Cursor {
                first,
                second: second + 1,
            }
        } else {
            Cursor {
                first: first + 1,
                second: first + 2,
            }
        }
    }
}

// Whether one more pair is allowed, and there is one.
fn is_left(pairs: usize, most: usize, k: usize, x: Cursor) -> bool
    ensures { result ≡ is_left_of pairs most k x }
{
    pairs < most && x.second < k
}

// Limits above 250,000 act as 250,000.
fn capped(limit: usize) -> usize
    ensures { result ≡ allowed limit }
{
    limit.min(250000)
}

// The free pairs in rising order, up to the limit, which is 250,000 at most; how many were examined, and how many records they gave.
pub fn walk_pairs(
    field: FieldRef,
    values: &[u8],
    f: &[f64],
    u: &[u32],
    k: usize,
    limit: usize,
    list: &mut [u16],
) -> Tally
    requires prepared { Prepared (lent field) values.now f.now u.now }
    requires freed { Freed values.now (free_at (variables (lent field)) (length (lent field).rows)) (length values.now) u.now u.now k }
    requires values_in_bounds { free_at (variables (lent field)) (length (lent field).rows) + length values.now ≤ length u.now }
    ensures { Walked (given field) values.now limit list.old list.new result }
{
    let most = capped(limit);
    let base = field.c.len() + 1 + 2 * field.rows.len() + field.c.len() + 2 * field.rows.len();
    let mut pairs = 0;
    let mut items = 0;
    let mut x = Cursor {
        first: 0,
        second: 1,
    };
    // The cursor moves over two positions, and the limit may end it in front of the last pair.
    while is_left(pairs, most, k, x) {
        let i = u[base + x.first] as usize;
        let j = u[base + x.second] as usize;
        items = append_pair(field, values, f, u, list, items, i, j);
        pairs += 1;
        x = x.after(k);
    }
    Tally { pairs, items }
}
