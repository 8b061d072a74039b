// What can be seen of an execution. Nothing changes.
ghost use Rattle.std.specs.Prelude.{◌≡◌, ◌<◌};
ghost use Rattle.std.specs.Option.{option_map};
ghost use Rattle.reader.specs.View.{program_of};
ghost use Rattle.runtime.specs.Runtime.{view_of as shown_of, frame_at, caller_at, end_of};
ghost use Rattle.ready.specs.Ready.{FrameInside, Framed};
ghost use Rattle.execution.specs.View.{state_of, view_in};

use crate::{Execution, FrameView};
use reader::package::Package;
use runtime::FrameRecord;

// What a frame shows whose slots go up to `end`.
fn view(program: &Package<'_>, frame: FrameRecord, end: usize) -> FrameView
    requires inside { FrameInside (program_of program.now) frame.function frame.base end }
    ensures { view_in result ≡ shown_of (program_of program.now) frame.function frame.place frame.base end }
{
    let variables = program.variables(frame.function);
    FrameView {
        function: frame.function,
        place: frame.place,
        depth: end - frame.base - variables,
    }
}

impl<'a> Execution<'a> {
    // How many frames are calling.
    pub(crate) fn callers(&mut self) -> usize
        ensures value { result ≡ (state_of self.old).callers }
        ensures same { self.new ≡ self.old }
    {
        self.frames.len()
    }

    // The calling frame with this number, the newest being 0.
    fn caller(&mut self, number: usize) -> FrameRecord
        requires there { number < (state_of self.old).callers }
        ensures value { result ≡ caller_at (state_of self.old) number }
        ensures same { self.new ≡ self.old }
    {
        let callers = self.callers();
        self.frames.at(callers - (number + 1))
    }

    // Where the caller with this number ends, the newest being 0: where the frame above it begins.
    fn end_of(&mut self, number: usize) -> usize
        requires there { number < (state_of self.old).callers }
        ensures value { result ≡ end_of (state_of self.old) number }
        ensures same { self.new ≡ self.old }
    {
        if number == 0 {
            return self.frame.base;
        }
        self.caller(number - 1).base
    }

    /// The frame with a number, the newest being 0.
    pub fn frame(&mut self, program: &Package<'_>, number: usize) -> Option<FrameView>
        requires framed { Framed (program_of program.now) (state_of self.old) }
        ensures value { option_map view_in result ≡ frame_at (program_of program.now) (state_of self.old) number }
        ensures same { self.new ≡ self.old }
    {
        if number == 0 {
            let top = self.top();
            return Some(view(program, self.frame, top));
        }
        if number > self.callers() {
            return None;
        }
        let caller = self.caller(number - 1);
        let end = self.end_of(number - 1);
        Some(view(program, caller, end))
    }
}
