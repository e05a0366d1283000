// For each variable its entries with their other ends, rising, an entry and an end in one word: flat lists with offsets in lent u32 scratch, made by a
// counting sort.
#![tactic(auto)]

mod counting;
mod placing;

ghost use Rattle.std.specs.Prelude.{◌≡◌, ◌+◌, ◌*◌, ◌<◌, ◌≤◌, length};
ghost use Rattle.places.specs.Places.{EndsBelow, Built, entry_in as entry_in_of, end_in, other_end as other_end_of};

// Makes the offsets and the flat lists at the front of u; past the last word u is unchanged.
pub fn build(u: &mut [u32], rows: &[u16], cols: &[u16], n: usize)
    requires ends_below { EndsBelow n rows.now cols.now }
    requires rows_in_bounds { n + 1 + 2 * length rows.now ≤ length u.old }
    ensures { Built n rows.now cols.now u.old u.new }
{
    u[..n].fill(0);
    counting::count(u, rows, cols, n);
    counting::sums(u, n);
    placing::place(u, rows, cols, n);
}

// The entry that a packed word of a place names.
pub fn entry_in(word: u32) -> usize
    ensures { result ≡ entry_in_of word }
{
    (word / 4096) as usize
}

// The end in a word: of its entry's two ends the other one.
pub fn end_in(word: u32) -> usize
    ensures { result ≡ end_in word }
{
    (word % 4096) as usize
}

// The end of entry k that is not i.
pub fn other_end(rows: &[u16], cols: &[u16], i: usize, k: usize) -> usize
    requires k_in_bounds { k < length rows.now }
    requires k_in_bounds_2 { k < length cols.now }
    ensures { result ≡ other_end_of rows.now cols.now i k }
{
    let r = usize::from(rows[k]);
    let c = usize::from(cols[k]);
    if r == i { c } else { r }
}
