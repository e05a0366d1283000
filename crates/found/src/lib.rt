// The list of found records at scale: numbers gathered in scratch go into the rising answer list, which grows by new pairs alone.
#![tactic(auto)]

mod blocks;
mod merging;

ghost use Rattle.std.specs.Prelude.{◌≡◌};
ghost use Rattle.sorting.specs.Numbers.{Keys};
ghost use Rattle.found.specs.Joint.{Held};
ghost use Rattle.found.specs.Flush.{left, flushed};

use merging::merge;

// Puts what the words from lo to hi stand for among the `held` records of the list, and says how many records it holds then; None where it has no room for them.
pub fn flush(list: &mut [u16], held: usize, u: &mut [u32], lo: usize, hi: usize) -> Option<usize>
    requires held { Held held list.old }
    requires keys { Keys lo hi u.old }
    ensures { left result list.new u.new ≡ flushed list.old held u.old lo hi }
{
    let end = sorting::distinct(u, lo, hi);
    merge(list, held, &u[lo..end])
}
