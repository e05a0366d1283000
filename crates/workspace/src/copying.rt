// A part of a lent slice copied to another part of it.
ghost use Rattle.std.specs.Prelude.{length};
ghost use Rattle.workspace.specs.Shifted.{Shiftable, Shifted};

// Copies `count` elements inside one slice, from `from` on to `to` on; the rest stays as it is.
pub fn copy_part<T: Copy>(xs: &mut [T], from: usize, to: usize, count: usize)
    requires { Shiftable from to count (length xs.old) }
    ensures { (d : T) → Shifted d from to count xs.old xs.new }
{
    xs.copy_within(from..from + count, to);
}
