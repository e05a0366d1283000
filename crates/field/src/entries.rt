// Tests at every position of a list, each of which covers the whole list; and the first entry at fault.
ghost use Rattle.std.specs.Prelude.{◌≡◌, false, ◌<◌, length};
ghost use Rattle.field.specs.Tests.{ends_below as ends_below_of, is_before, all_rise as all_rise_of, in_order, is_fine as is_fine_of, first_from, wrong_at as wrong_at_of, fault_of, off_diagonal as off_diagonal_of, bytes_small as bytes_small_of};

use crate::Refusal;

// Whether every end is below top.
fn shorts_below(top: u16, ends: &[u16]) -> bool
    ensures { result ≡ ends_below_of top ends.now }
{
    let mut below = true;
    for &end in ends {
        below = below & (end < top);
    }
    below
}

// Whether every end is below n.
pub fn ends_below(n: usize, ends: &[u16]) -> bool
    ensures { result ≡ ends_below_of n ends.now }
{
    if n > 65535 {
        return true;
    }
    shorts_below(n as u16, ends)
}

// Whether the entry (row, col) stands before (row2, col2).
pub fn stands_before(row: u16, col: u16, row2: u16, col2: u16) -> bool
    ensures { result ≡ is_before row col row2 col2 }
{
    (col < col2) | ((col == col2) & (row < row2))
}

// Whether each entry stands before the next.
pub fn all_rise(rows: &[u16], cols: &[u16]) -> bool
    requires { length rows.now ≡ length cols.now }
    ensures { result ≡ all_rise_of rows.now cols.now }
{
    let mut rise = true;
    for k in 1..rows.len() {
        rise = rise & stands_before(rows[k - 1], cols[k - 1], rows[k], cols[k]);
    }
    rise
}

// Whether entry k has its ends below n, and stands after the entry before.
fn is_fine(n: usize, rows: &[u16], cols: &[u16], k: usize) -> bool
    requires rows_len { length rows.now ≡ length cols.now }
    requires k_in_bounds { k < length rows.now }
    ensures { result ≡ is_fine_of n rows.now cols.now k }
{
    if usize::from(rows[k]) >= n {
        return false;
    }
    if usize::from(cols[k]) >= n {
        return false;
    }
    if k == 0 {
        return true;
    }
    let last = k - 1;
    stands_before(rows[last], cols[last], rows[k], cols[k])
}

// The first entry that is not fine; as many as there are entries where all are.
fn first_fault(n: usize, rows: &[u16], cols: &[u16]) -> usize
    requires { length rows.now ≡ length cols.now }
    ensures { result ≡ first_from (is_fine_of n rows.now cols.now) 0 (length rows.now) }
{
    for k in 0..rows.len() {
        if !is_fine(n, rows, cols, k) {
            return k;
        }
    }
    rows.len()
}

// What is wrong with entry k, which is not fine.
fn wrong_at(n: usize, rows: &[u16], cols: &[u16], k: usize) -> Refusal
    requires rows_len { length rows.now ≡ length cols.now }
    requires k_in_bounds { k < length rows.now }
    requires k_value { is_fine_of n rows.now cols.now k ≡ false }
    ensures { result ≡ wrong_at_of n rows.now cols.now k }
{
    if usize::from(rows[k]) >= n {
        return Refusal::Row(k);
    }
    if usize::from(cols[k]) >= n {
        return Refusal::Column(k);
    }
    let last = k - 1;
    if rows[k] != rows[last] {
        return Refusal::Order(k);
    }
    if cols[k] != cols[last] {
        return Refusal::Order(k);
    }
    Refusal::Repeat(k)
}

// What is wrong with the first entry at fault of a list that is not in order.
pub fn fault(n: usize, rows: &[u16], cols: &[u16]) -> Refusal
    requires rows_len { length rows.now ≡ length cols.now }
    requires cols_value { in_order n rows.now cols.now ≡ false }
    ensures { result ≡ fault_of n rows.now cols.now }
{
    wrong_at(n, rows, cols, first_fault(n, rows, cols))
}

// Whether no entry has its row equal to its column.
pub fn off_diagonal(rows: &[u16], cols: &[u16]) -> bool
    requires { length rows.now ≡ length cols.now }
    ensures { result ≡ off_diagonal_of rows.now cols.now }
{
    let mut off = true;
    for k in 0..rows.len() {
        off = off & (rows[k] != cols[k]);
    }
    off
}

// Whether every byte is 0, 1 or 2.
pub fn bytes_small(s: &[u8]) -> bool
    ensures { result ≡ bytes_small_of s.now }
{
    let mut small = true;
    for &byte in s {
        small = small & (byte <= 2);
    }
    small
}
