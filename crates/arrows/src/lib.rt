// What each literal reaches by the arrows of a list of records: the arrows marked in rows of bits, and the rows closed.
#![tactic(auto)]

ghost use Rattle.std.specs.Prelude.{[], ◌∷◌, ◌*◌, ◌/◌, ◌%◌, ◌^◌, ◌<◌, ◌≤◌, length};
ghost use Rattle.meaning.specs.Kinds.{pair};
ghost use Rattle.meaning.specs.Literal.{bars};
ghost use Rattle.meaning.specs.Records.{chosen, pairs_in};
ghost use Rattle.literals.specs.Listed.{Listed};
ghost use Rattle.literals.specs.Ends.{rules};
ghost use Rattle.bit_rows.specs.Rows.{bit_in, Holding};
ghost use Rattle.arrows.specs.Marks.{Marked, Between, Wide, selves as selves_of, Filled};

// Marks both arrows of the forbidden values a of i and b of j.
fn bar(w: &mut [u64], i: usize, j: usize, a: usize, b: usize)
    requires between { Between i j w.old }
    requires a_bound { a < 2 }
    requires b_bound { b < 2 }
    ensures { Marked (bars i j (pair a b ∷ [])) w.old w.new }
{
    bit_rows::mark(w, 2 * i + a, 2 * j + (1 - b));
    bit_rows::mark(w, 2 * j + b, 2 * i + (1 - a));
}

// The same where bit number `at` of the set says so.
fn bar_if(w: &mut [u64], i: usize, j: usize, set: usize, at: usize, a: usize, b: usize)
    requires between { Between i j w.old }
    requires at_bound { at < 4 }
    requires a_bound { a < 2 }
    requires b_bound { b < 2 }
    ensures { Marked (bars i j (chosen (set / 2 ^ at % 2) (pair a b))) w.old w.new }
{
    if (set >> at) & 1 == 1 {
        bar(w, i, j, a, b);
    }
}

// The arrows of one record.
fn bar_set(w: &mut [u64], i: usize, j: usize, set: usize)
    requires { Between i j w.old }
    ensures { Marked (bars i j (pairs_in set)) w.old w.new }
{
    bar_if(w, i, j, set, 0, 0, 0);
    bar_if(w, i, j, set, 1, 0, 1);
    bar_if(w, i, j, set, 2, 1, 0);
    bar_if(w, i, j, set, 3, 1, 1);
}

// The arrows of all records.
fn bar_all(list: &[u16], n: usize, w: &mut [u64])
    requires listed { Listed n list.now }
    requires wide { Wide n w.old }
    ensures { Marked (rules list.now) w.old w.new }
{
    let (records, _) = list.as_chunks::<3>();
    for record in records {
        let i = usize::from(record[0]);
        let j = usize::from(record[1]);
        let set = usize::from(record[2]);
        bar_set(w, i, j, set);
    }
}

// Each of the first m literals leads to itself.
fn selves(w: &mut [u64], m: usize)
    requires m_bound { m ≤ 2048 }
    requires m_in_bounds { m * 32 ≤ length w.old }
    ensures { Holding (selves_of m (bit_in w.old)) w.old w.new }
{
    for a in 0..m {
        bit_rows::mark(w, a, a);
    }
}

// Puts what each literal reaches into its row, and nothing into the row behind them.
pub fn fill(list: &[u16], n: usize, w: &mut [u64])
    requires listed { Listed n list.now }
    requires wide { Wide n w.old }
    ensures { Filled (rules list.now) n w.old w.new }
{
    w.fill(0);
    selves(w, 2 * n);
    bar_all(list, n, w);
    bit_rows::close(w, 2 * n);
}
