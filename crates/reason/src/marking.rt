// The fixed neighbours of a variable: marked among the values, then listed, rising.
ghost use Rattle.std.specs.Prelude.{◌≡◌, true, cond, ◌+◌, ◌<◌, ◌≤◌, eqb, length};
ghost use Rattle.scratch.specs.Over.{over};
ghost use Rattle.places.specs.Places.{Adjacent, EndsBelow, places};
ghost use Rattle.reason.specs.Stages.{marked as marked_of, mark_all, threes, Pushed};

// A value is marked; a free one stays.
fn marked(v: u8) -> u8
    ensures { result ≡ marked_of v }
{
    if v == 2 { 2 } else { 3 }
}

// The other end of each place of variable i is marked where it has a value.
pub fn mark(rows: &[u16], cols: &[u16], values: &mut [u8], u: &[u32], i: usize)
    requires ends_below { EndsBelow (length values.old) rows.now cols.now }
    requires adjacent { Adjacent (length values.old) rows.now cols.now u.now }
    requires i_in_bounds { i < length values.old }
    ensures { values.new ≡ mark_all rows.now cols.now i values.old (places rows.now cols.now i) }
{
    let n = values.len();
    let start = u[i] as usize;
    let end = u[i + 1] as usize;
    for p in start..end {
        let t = places::end_in(u[n + 1 + p]);
        values[t] = marked(values[t]);
    }
}

// One more where the value is marked.
fn counted(count: usize, v: u8) -> usize
    requires { count < 65536 }
    ensures { result ≡ cond (eqb v 3) (count + 1) count }
{
    if v != 3 {
        return count;
    }
    count + 1
}

// How many values are marked as listed neighbours.
pub fn count_marked(values: &[u8]) -> usize
    requires { length values.now ≤ 4096 }
    ensures { result ≡ length (threes values.now (length values.now)) }
{
    let mut count = 0;
    for v in values {
        count = counted(count, *v);
    }
    count
}

// Variable j goes to the end of the list if its value is marked; the list's new end.
fn push(list: &mut [u16], count: usize, j: usize, v: u8) -> usize
    requires count_in_bounds { eqb v 3 ≡ true → count < length list.old }
    requires j_bound { j < 65536 }
    ensures { Pushed v j count list.old list.new result }
{
    if v != 3 {
        return count;
    }
    list[count] = j as u16;
    count + 1
}

// The marked variables, rising, at the front of the list.
pub fn list_marked(values: &[u8], list: &mut [u16])
    requires values_len_bound { length values.now ≤ 4096 }
    requires values_in_bounds { length (threes values.now (length values.now)) ≤ length list.old }
    ensures { list.new ≡ over (threes values.now (length values.now)) list.old }
{
    let mut count = 0;
    for (j, v) in values.iter().enumerate() {
        count = push(list, count, j, *v);
    }
}
