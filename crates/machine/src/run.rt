// Runs, and looks at frames.
ghost use Rattle.std.specs.Prelude.{◌≡◌, ℕ, Ok};
ghost use Rattle.checked.specs.Runs.{refusal, looked};
ghost use Rattle.runtime.specs.Runtime.{runtime_machine};
ghost use Rattle.machine.specs.declared.Condition.TheVariants.{Live};
ghost use Rattle.machine.specs.View.{program_in, status_of, saw, no_frame_fault, fault_in};
ghost use Rattle.machine.specs.Runs.{Ran};

use crate::step::step;
use crate::{Condition, Machine, NoFrame, Outcome, Over};
use execution::FrameView;
use host::Host;

impl<'p, 'm> Machine<'p, 'm> {
    // The steps of a run on a living machine.
    #[tactic(auto, using(crate::proofs::Running::going_first))]
    fn go<H: Host>(&mut self, host: &mut H, allowance: u32) -> Outcome
        requires { self.old.condition ≡ Live }
        ensures { Ran H.Host.make self.old (H.Host.state host.old) allowance (Ok result) self.new (H.Host.state host.new) }
    {
        // It counts steps, which the answer tells, and no index.
        for used in 0..allowance {
            let steps = used + 1;
            match step(&self.program, &mut self.execution, host) {
                Ok(None) => {}
                Ok(Some(word)) => {
                    self.condition = Condition::Ended(word);
                    return Outcome::Ended { word, steps };
                }
                Err(stop) => {
                    self.condition = Condition::Stopped(stop);
                    let function = self.execution.function();
                    let place = self.execution.place();
                    return Outcome::Stopped {
                        stop,
                        function,
                        place,
                        steps,
                    };
                }
            }
        }
        Outcome::Continues { steps: allowance }
    }

    /// Steps until the machine ends, stops or has used the allowance. A machine that is over is refused, and it and the host stay as they are.
    pub fn run<H: Host>(&mut self, host: &mut H, allowance: u32) -> Result<Outcome, Over>
        ensures { Ran H.Host.make self.old (H.Host.state host.old) allowance result self.new (H.Host.state host.new) }
    {
        match self.condition {
            Condition::Live => Ok(self.go(host, allowance)),
            Condition::Ended(_) | Condition::Stopped(_) => Err(Over),
        }
    }

    /// The frame with a number, the newest being 0. An ended machine has none. Nothing changes.
    #[tactic(auto, using(crate::proofs::Readiness::framed))]
    pub fn look(&mut self, frame: usize) -> Result<FrameView, NoFrame>
        ensures answer { (n : ℕ) → saw result ≡ looked (runtime_machine {S = ℕ} (program_in self.old)) frame (status_of n self.old) }
        ensures refused { (n : ℕ) → fault_in no_frame_fault result ≡ refusal (looked (runtime_machine {S = ℕ} (program_in self.old)) frame (status_of n self.old)) }
        ensures same { self.new ≡ self.old }
    {
        match self.condition {
            Condition::Live | Condition::Stopped(_) => {
                self.execution.frame(&self.program, frame).ok_or(NoFrame)
            }
            Condition::Ended(_) => Err(NoFrame),
        }
    }
}
