// A small part of the free variables, completed by enumeration: of all masks of its members the lowest of least objective.
#![tactic(auto)]

mod linear;
mod pairs;

ghost use Rattle.std.specs.Prelude.{◌≡◌, length};
ghost use Rattle.scratch.specs.Region.{region};
ghost use Rattle.field.specs.Field.{given, lent, variables};
ghost use Rattle.masks.specs.Listed.{Room};
ghost use Rattle.enumeration.specs.Held.{Held, Small};
ghost use Rattle.enumeration.specs.Terms.{mask_of, put_to, solved};

use field::FieldRef;

// The mask that wins, by the terms that it lists.
fn choose(
    field: FieldRef,
    values: &[u8],
    u: &[u32],
    at: usize,
    count: usize,
    terms: &mut [f64],
    required: &mut [u16],
) -> usize
    requires held { Held (lent field) values.now u.now }
    requires small { Small (variables (lent field)) u.now at count }
    requires room { Room 110 terms.old required.old }
    ensures { result ≡ mask_of (given field) values.now (region at count u.now) }
{
    let linear = linear::list_linear(field, values, u, at, count, terms, required);
    let end = pairs::list_pairs(field, u, at, count, linear, terms, required);
    let size = masks::bit(count);
    masks::lowest(terms, required, end, size)
}

// The mask that wins among those of the count members at `at`: at most 10 linear terms, and 100 of pairs.
fn enumerate(field: FieldRef, values: &[u8], u: &[u32], at: usize, count: usize) -> usize
    requires held { Held (lent field) values.now u.now }
    requires small { Small (variables (lent field)) u.now at count }
    ensures { result ≡ mask_of (given field) values.now (region at count u.now) }
{
    let mut terms = [0.0; 110];
    let mut required = [0u16; 110];
    choose(field, values, u, at, count, &mut terms, &mut required)
}

// Bit b of the mask becomes the value of member b.
fn put(values: &mut [u8], u: &[u32], at: usize, count: usize, mask: usize)
    requires { Small (length values.old) u.now at count }
    ensures { values.new ≡ put_to values.old (region at count u.now) mask count }
{
    for b in 0..count {
        values[u[at + b] as usize] = masks::bit_of(mask, b);
    }
}

// The members get the values of the mask that wins.
pub fn solve(field: FieldRef, values: &mut [u8], u: &[u32], at: usize, count: usize)
    requires held { Held (lent field) values.old u.now }
    requires small { Small (variables (lent field)) u.now at count }
    ensures { values.new ≡ solved (given field) values.old (region at count u.now) }
{
    let mask = enumerate(field, values, u, at, count);
    put(values, u, at, count, mask);
}
