// The start and the end of a machine.
ghost use Rattle.std.specs.Prelude.{◌≡◌, ℕ, ◌<◌, true, List, length};
ghost use Rattle.host.specs.Hosts.{Call};
ghost use Rattle.plan.specs.Plans.{Fullest};
ghost use Rattle.checked.specs.Law.{Plans};
ghost use Rattle.ready.specs.Ready.{Ready};
ghost use Rattle.runtime.specs.Law.{sizes_of, begun, Law};
ghost use Rattle.verifier.specs.Checking.{Checked, meaning_of};
ghost use Rattle.machine.specs.View.{program_in, state_of, status_of, memory_in};
ghost use Rattle.machine.specs.Sizes.{sizes_allowed};

use crate::sizes::main_variables;
use crate::{Condition, Machine};
use execution::{Execution, Lent};
use verifier::program::Program;

impl<'p, 'm> Machine<'p, 'm> {
    /// Starts an accepted program over memory of sizes that were allowed. It cannot refuse. What the machine is owed from here on, over
    /// every list of runs and looks, is the law.
    #[tactic(auto, using(crate::proofs::Starting::start_enough))]
    pub fn start(program: Program<'p>, memory: Lent<'m>) -> Machine<'p, 'm>
        requires checked { Checked program }
        requires allowed { sizes_allowed (meaning_of program) (sizes_of (memory_in memory)) ≡ true }
        ensures begun { status_of 0 result ≡ begun (meaning_of program.entry) (memory_in memory.entry) }
        ensures program { result.program ≡ program.entry.contents }
        ensures ready { Ready (program_in result) (state_of result) }
        ensures law { (plans : Plans) → ((f : ℕ) → f < length (meaning_of program.entry).functions → Fullest (meaning_of program.entry) f (plans f)) → Law (List Call) (meaning_of program.entry) plans (memory_in memory.entry) }
    {
        Machine {
            program: *program.contents(),
            execution: Execution::new(main_variables(&program), memory),
            condition: Condition::Live,
        }
    }

    /// Takes a machine apart: it runs no more. Answers the lent memory, as the machine leaves it.
    pub fn end(self) -> Lent<'m>
        ensures slots { result.slots.now ≡ (state_of self.entry).slots }
        ensures frames { result.frames.now ≡ (state_of self.entry).frames }
        ensures cells { result.cells.now ≡ (state_of self.entry).storage.cells }
        ensures records { result.records.now ≡ (state_of self.entry).storage.records }
    {
        let Machine {
            program: _,
            execution,
            condition: _,
        } = self;
        execution.end()
    }
}
