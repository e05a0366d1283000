// The terms of the entries between members of a part.
ghost use Rattle.std.specs.Prelude.{◌≡◌, ◌+◌, ◌<◌, length, MatchOption};
ghost use Rattle.scratch.specs.Region.{region};
ghost use Rattle.field.specs.Field.{given, lent, variables, entries};
ghost use Rattle.masks.specs.Listed.{lists, Room, Listed};
ghost use Rattle.enumeration.specs.Held.{Placed, Small};
ghost use Rattle.enumeration.specs.Terms.{stands, entry_of, pair_term, column_terms, pair_terms};

use field::FieldRef;

// Whether entry k is (i, j).
fn stands_at(rows: &[u16], cols: &[u16], k: usize, i: usize, j: usize) -> bool
    requires k_in_bounds { k < length rows.now }
    requires k_in_bounds_2 { k < length cols.now }
    ensures { result ≡ stands rows.now cols.now i j k }
{
    usize::from(rows[k]) == i && usize::from(cols[k]) == j
}

// The entry (i, j), found among the places of i.
fn entry_of(field: FieldRef, u: &[u32], i: usize, j: usize) -> Option<usize>
    requires placed { Placed (lent field) u.now }
    requires i_bound { i < variables (lent field) }
    ensures { MatchOption result (entries (given field) ≡ entry_of (given field) i j) (λ k. (k < entries (given field)) × (k ≡ entry_of (given field) i j)) }
{
    let n = field.c.len();
    let start = u[i] as usize;
    let end = u[i + 1] as usize;
    for p in start..end {
        let k = places::entry_in(u[n + 1 + p]);
        if stands_at(field.rows, field.cols, k, i, j) {
            return Some(k);
        }
    }
    None
}

// The term of members a and b, in row and column, at the end of the lists if such an entry stands; answers where they end then.
fn list_pair(
    field: FieldRef,
    u: &[u32],
    at: usize,
    count: usize,
    b: usize,
    a: usize,
    end: usize,
    terms: &mut [f64],
    required: &mut [u16],
) -> usize
    requires placed { Placed (lent field) u.now }
    requires small { Small (variables (lent field)) u.now at count }
    requires room { Room (end + 1) terms.old required.old }
    requires a_lt_count { a < count }
    requires b_lt_count { b < count }
    ensures { Listed (pair_term (given field) (region at count u.now) b a) (lists end terms.old required.old) (lists result terms.new required.new) }
{
    let i = u[at + a] as usize;
    let j = u[at + b] as usize;
    match entry_of(field, u, i, j) {
        None => end,
        Some(k) => masks::list_term(
            terms,
            required,
            end,
            masks::bit(a) | masks::bit(b),
            weights::half(field.q[k]),
        ),
    }
}

// The terms of the column of member b, by rows in pop order.
fn list_column(
    field: FieldRef,
    u: &[u32],
    at: usize,
    count: usize,
    b: usize,
    from: usize,
    terms: &mut [f64],
    required: &mut [u16],
) -> usize
    requires placed { Placed (lent field) u.now }
    requires small { Small (variables (lent field)) u.now at count }
    requires room { Room (from + 10) terms.old required.old }
    requires b_lt_count { b < count }
    ensures { Listed (column_terms (given field) (region at count u.now) b count) (lists from terms.old required.old) (lists result terms.new required.new) }
{
    let mut end = from;
    for a in 0..count {
        end = list_pair(field, u, at, count, b, a, end, terms, required);
    }
    end
}

// Lists the terms of all entries between members, by columns in pop order.
pub fn list_pairs(
    field: FieldRef,
    u: &[u32],
    at: usize,
    count: usize,
    from: usize,
    terms: &mut [f64],
    required: &mut [u16],
) -> usize
    requires placed { Placed (lent field) u.now }
    requires small { Small (variables (lent field)) u.now at count }
    requires room { Room (from + 100) terms.old required.old }
    ensures { Listed (pair_terms (given field) (region at count u.now) count) (lists from terms.old required.old) (lists result terms.new required.new) }
{
    let mut end = from;
    for b in 0..count {
        end = list_column(field, u, at, count, b, end, terms, required);
    }
    end
}
