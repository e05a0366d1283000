// The new numbers of the free variables, and the map back.
ghost use Rattle.std.specs.Prelude.{◌≡◌, cond, ◌+◌, ◌≤◌, ◌<◌, length, set};
ghost use Rattle.meaning.specs.Free.{is_free};
ghost use Rattle.scratch.specs.Over.{over};
ghost use Rattle.sub_problem.specs.Reduced.{back, new_index};
ghost use Rattle.sub_problem.specs.Working.{Numbers, Numbered};

// One more where variable i is free.
fn next_number(start: &[u8], i: usize, count: usize) -> usize
    requires i_in_bounds { i < length start.now }
    requires count_bound { count ≤ 4096 }
    ensures { result ≡ cond (is_free start.now i) (count + 1) count }
{
    if start[i] == 2 {
        return count + 1;
    }
    count
}

// The first words become the new numbers; how many variables are free.
pub fn number(start: &[u8], u: &mut [u32]) -> usize
    requires start_len_bound { length start.now ≤ 4096 }
    requires start_in_bounds { length start.now ≤ length u.old }
    ensures { Numbered start.now (length start.now) u.new result }
{
    let mut count: usize = 0;
    for i in 0..start.len() {
        u[i] = count as u32;
        count = next_number(start, i, count);
    }
    count
}

// A free variable goes to its place in the map.
fn enter(start: &[u8], u: &[u32], map: &mut [u16], i: usize)
    requires numbers { Numbers start.now u.now }
    requires i_in_bounds { i < length start.now }
    requires start_in_bounds { length (back start.now) ≤ length map.old }
    ensures { map.new ≡ cond (is_free start.now i) (set map.old (new_index start.now i) i) map.old }
{
    if start[i] == 2 {
        map[u[i] as usize] = i as u16;
    }
}

// Writes the old number of each new variable to the front of the map list, rising.
pub fn list_back(start: &[u8], u: &[u32], map: &mut [u16])
    requires numbers { Numbers start.now u.now }
    requires start_in_bounds { length (back start.now) ≤ length map.old }
    ensures { map.new ≡ over (back start.now) map.old }
{
    for i in 0..start.len() {
        enter(start, u, map, i);
    }
}
