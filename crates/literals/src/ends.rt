// The ends of the records: the variable at each, what a value there says of the other end, and the chains of ends that have one variable.
ghost use Rattle.std.specs.Prelude.{◌≡◌, ◌+◌, ◌*◌, ◌<◌, ◌≤◌, length};
ghost use Rattle.meaning.specs.Records.{pairs_in};
ghost use Rattle.constraints.specs.Record.{room};
ghost use Rattle.literals.specs.Listed.{Listed};
ghost use Rattle.literals.specs.Ends.{mine as mine_of, other as other_of, is_among, barred as barred_by, gives as given_by, says as says_of, Unlinked, Linked};

// The variable at end x.
pub fn mine(list: &[u16], x: usize) -> usize
    requires list_len { length list.now ≡ 3 * room list.now }
    requires x_bound { x < 2 * room list.now }
    ensures { result ≡ mine_of list.now x }
{
    let at = 3 * (x / 2) + x % 2;
    usize::from(list[at])
}

// Reads, from the list, the variable at the other end of the record that has the end x.
pub fn other(list: &[u16], x: usize) -> usize
    requires list_len { length list.now ≡ 3 * room list.now }
    requires x_bound { x < 2 * room list.now }
    ensures { result ≡ other_of list.now x }
{
    let at = 3 * (x / 2) + (1 - x % 2);
    usize::from(list[at])
}

// Whether the set forbids a at the lower end with b at the higher one.
fn forbids(set: u16, a: u8, b: u8) -> bool
    requires a_bound { a < 2 }
    requires b_bound { b < 2 }
    ensures { result ≡ is_among a b (pairs_in set) }
{
    set >> (2 * a + b) & 1 == 1
}

// Whether v here and w at the other end are forbidden.
fn barred(set: u16, forth: bool, v: u8, w: u8) -> bool
    requires v_bound { v < 2 }
    requires w_bound { w < 2 }
    ensures { result ≡ barred_by set forth v w }
{
    if forth {
        return forbids(set, v, w);
    }
    forbids(set, w, v)
}

// What v here gives the other end: 0, 1, 2 for nothing, or 3 for both, numbers since `Stands`, which the promise of a step rests on, compares them with values.
fn gives(set: u16, forth: bool, v: u8) -> u8
    requires { v < 2 }
    ensures { result ≡ given_by set forth v }
{
    match (barred(set, forth, v, 0), barred(set, forth, v, 1)) {
        (true, true) => 3,
        (true, false) => 1,
        (false, true) => 0,
        (false, false) => 2,
    }
}

// What the value v at end x says of the other end.
pub fn says(list: &[u16], x: usize, v: u8) -> u8
    requires list_len { length list.now ≡ 3 * room list.now }
    requires x_bound { x < 2 * room list.now }
    requires v_bound { v < 2 }
    ensures { result ≡ says_of list.now x v }
{
    let at = 3 * (x / 2) + 2;
    gives(list[at], x % 2 == 0, v)
}

// Puts every end in front of the chain of its variable; where each chain begins is 0 before.
pub fn link(list: &[u16], u: &mut [u32], n: usize)
    requires listed { Listed n list.now }
    requires n_bound { n ≤ 4096 }
    requires list_in_bounds { 3 * n + 2 * room list.now ≤ length u.old }
    requires unlinked { Unlinked n u.old }
    ensures { Linked list.now n u.new (2 * room list.now) }
{
    let count = 2 * (list.len() / 3);
    for x in 0..count {
        let at = 2 * n + mine(list, x);
        u[3 * n + x] = u[at];
        u[at] = x as u32 + 1;
    }
}
