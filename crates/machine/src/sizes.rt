// The question of sizes, which comes before a start.
ghost use Rattle.std.specs.Prelude.{◌≡◌, ◌≤◌, if◌then◌else◌, Some, None};
ghost use Rattle.plan.specs.Programs.{variables_at};
ghost use Rattle.verifier.specs.Checking.{meaning_of};
ghost use Rattle.machine.specs.View.{sizes_in, sizes_fault, fault_in};
ghost use Rattle.machine.specs.Sizes.{sizes_allowed};

use crate::SizesRefused;
use execution::calls::reserve;
use verifier::program::Program;

const SLOT_LIMIT: usize = 8192;

const FRAME_LIMIT: usize = 64;

const CELL_LIMIT: usize = 4096;

const RECORD_LIMIT: usize = 1024;

/// How many slots, frames, cells and block records a machine has.
#[derive(Clone, Copy, Debug, PartialEq, Eq)]
pub struct Sizes {
    pub slots: usize,
    pub frames: usize,
    pub cells: usize,
    pub records: usize,
}

// How many variables main has.
pub(crate) fn main_variables(program: &Program<'_>) -> usize
    ensures met { result ≡ variables_at (meaning_of program.now) 0 }
    ensures few { result ≤ 32 }
{
    program.contents().variables(0)
}

/// Whether a program may be started with memory of these sizes.
pub fn allows(program: &Program<'_>, sizes: Sizes) -> Result<(), SizesRefused>
    ensures { fault_in sizes_fault result ≡ (if sizes_allowed (meaning_of program.now) (sizes_in sizes) then None else Some (30, 0, 0)) }
{
    if sizes.slots > SLOT_LIMIT
        || sizes.frames == 0
        || sizes.frames > FRAME_LIMIT
        || sizes.cells > CELL_LIMIT
        || sizes.records > RECORD_LIMIT
    {
        return Err(SizesRefused);
    }
    if reserve(main_variables(program)) > sizes.slots {
        return Err(SizesRefused);
    }
    Ok(())
}
