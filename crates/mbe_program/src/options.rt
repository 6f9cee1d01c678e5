// The options of a run.
ghost use Rattle.std.specs.Prelude.{◌≡◌};
ghost use Rattle.mbe_program.specs.Options.{name_of};

use mbe_tt::span::Edition;

/// The options of a run: whether to lint in place of expanding, the names of both files, and the
/// edition.
#[derive(Clone, Copy)]
pub struct Options<'a> {
    pub lint: bool,
    pub def: &'a str,
    pub arg: &'a str,
    pub edition: Edition,
}

impl<'a> Options<'a> {
    /// Returns the name of a file: the definition's for 0, the argument's for any other number.
    pub fn name_of(&self, file: u32) -> &'a str
        ensures { result.now ≡ name_of self.now file }
    {
        if file == 0 { self.def } else { self.arg }
    }
}
