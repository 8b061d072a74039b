// A function under judgement.
ghost use Rattle.std.specs.Prelude.{◌≡◌, ◌<◌, ◌≤◌, length};
ghost use Rattle.plan.specs.Programs.{code_at};
ghost use Rattle.reader.specs.View.{program_of};

use reader::package::Package;

/// A function of a package that was read, and its code.
#[derive(Clone, Copy)]
pub(crate) struct Body<'p> {
    pub(crate) package: &'p Package<'p>,
    pub(crate) function: usize,
    pub(crate) code: &'p [u8],
    ghost inside: { function < length (program_of «package».now).functions },
    ghost coded: { code.now ≡ code_at (program_of «package».now) function },
    ghost few: { length code.now ≤ 4096 },
}
