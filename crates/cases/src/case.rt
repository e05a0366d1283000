// A case that is read.
ghost use Rattle.std.specs.Prelude.{length};
ghost use Rattle.stream.specs.Heads.{Fits};

use stream::head::Head;

// The head and the contents of a case, which the buffers hold and whose contents are all there.
#[derive(Clone, Copy)]
pub struct Case<'a> {
    pub head: Head,
    pub contents: &'a [u8],
    pub ghost fits: { Fits head (length contents.now) },
}
