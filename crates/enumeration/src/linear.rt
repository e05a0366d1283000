// The linear terms of a part: c of a member, and what its entries to fixed variables add.
ghost use Rattle.std.specs.Prelude.{◌≡◌, ◌<◌, length};
ghost use Rattle.scratch.specs.Region.{region};
ghost use Rattle.field.specs.Field.{given, lent, variables, entries};
ghost use Rattle.places.specs.Places.{other_end};
ghost use Rattle.masks.specs.Listed.{lists, Room, Listed};
ghost use Rattle.enumeration.specs.Held.{Valued, Held, Small};
ghost use Rattle.enumeration.specs.Terms.{linear_at, linear_part, linear_terms};

use field::FieldRef;

// The sum after place k of variable i: its other end t, where it is fixed, adds coefficient times value.
fn add_end(field: FieldRef, values: &[u8], i: usize, k: usize, t: usize, sum: f64) -> f64
    requires valued { Valued (lent field) values.now }
    requires k_bound { k < entries (lent field) }
    requires t_value { t ≡ other_end (lent field).rows (lent field).cols i k }
    ensures { result ≡ linear_at (given field) values.now i sum k }
{
    let v = values[t];
    if v == 2 {
        return sum;
    }
    sum + weights::half(field.q[k]) * (v as f64)
}

// The linear part of variable i, over its places, rising.
fn linear_of(field: FieldRef, values: &[u8], u: &[u32], i: usize) -> f64
    requires held { Held (lent field) values.now u.now }
    requires i_bound { i < variables (lent field) }
    ensures { result ≡ linear_part (given field) values.now i }
{
    let n = field.c.len();
    let start = u[i] as usize;
    let end = u[i + 1] as usize;
    let mut sum = field.c[i];
    for p in start..end {
        let word = u[n + 1 + p];
        let k = places::entry_in(word);
        let t = places::end_in(word);
        sum = add_end(field, values, i, k, t, sum);
    }
    sum
}

// The linear terms, in pop order, from the front of the lists; answers where they end.
pub fn list_linear(
    field: FieldRef,
    values: &[u8],
    u: &[u32],
    at: usize,
    count: usize,
    terms: &mut [f64],
    required: &mut [u16],
) -> usize
    requires held { Held (lent field) values.now u.now }
    requires small { Small (variables (lent field)) u.now at count }
    requires room { Room 10 terms.old required.old }
    ensures { Listed (linear_terms (given field) values.now (region at count u.now) count) (lists 0 terms.old required.old) (lists result terms.new required.new) }
{
    let mut end = 0;
    for b in 0..count {
        let i = u[at + b] as usize;
        let value = linear_of(field, values, u, i);
        end = masks::list_term(terms, required, end, masks::bit(b), value);
    }
    end
}
