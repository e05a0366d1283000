// A block of a list moved up in it.
ghost use Rattle.std.specs.Prelude.{◌≡◌, ◌≤◌, length};
ghost use Rattle.found.specs.Blocks.{raised};

// The elements from `low` to `high` go up, so that they end at `top`; what stood there is overwritten.
pub fn move_up(list: &mut [u16], low: usize, high: usize, top: usize)
    requires low_le_high { low ≤ high }
    requires high_le_top { high ≤ top }
    requires top_in_bounds { top ≤ length list.old }
    ensures { list.new ≡ raised low high top list.old }
{
    // A block that stands there already is not walked.
    if high == top {
        return;
    }
    list.copy_within(low..high, top - (high - low));
}
