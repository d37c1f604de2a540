// Calls answered one by one, and bytes served in pieces of any size.
ghost use Rattle.std.specs.Prelude.{◌+◌, ◌*◌, ◌≤◌, length};
ghost use Rattle.io.specs.Counts.{IsPrefixLen};
ghost use Rattle.rules.specs.Answers.{StepIs};
ghost use Rattle.rules.specs.Steps.{step};
ghost use Rattle.step.specs.Session.{step_of, obeyed};
ghost use Rattle.step.specs.Serving.{Prints, Serves, Finishes};

use crate::held::Held;
use calls::{BadLine, Call};
use rules::{Answer, State};

// What ends a line.
const LINE_END: u8 = b'\n';

// Between two bytes: the state, and the line that has begun.
#[derive(Drop)]
pub(crate) struct Desk {
    pub(crate) state: State,
    pub(crate) line: Held,
}

fn called(state: &mut State, call: Call) -> Answer
    ensures { StepIs (step_of state.old call) (step result state.new) }
{
    match call {
        Call::Tick => executive::tick(state),
        Call::Complete(word) => executive::complete(state, word),
    }
}

// One line: its answer is printed at a place.
fn obey(state: &mut State, call: Result<Call, BadLine>, out: &mut [u8], at: usize) -> usize
    requires { at + 50 ≤ length out.old }
    ensures { Prints (obeyed state.old call) out.old at state.new result out.new }
{
    let Ok(call) = call else {
        return text::bad_line(out, at);
    };
    text::answer_line(called(state, call), out, at)
}

impl Desk {
    // A piece of the input: each byte goes to the line that has begun, or ends it and has it answered.
    pub(crate) fn serve(&mut self, bytes: &[u8], out: &mut [u8]) -> usize
        requires { 50 * length bytes.now ≤ length out.old }
        ensures serves { Serves self.old bytes.now out.old self.new result out.new }
        ensures prefix_len { IsPrefixLen result out.new }
    {
        let mut end = 0;
        for &byte in bytes {
            if byte == LINE_END {
                end = obey(&mut self.state, self.line.asked(), out, end);
                self.line = Held::new();
            } else {
                self.line.keep(byte);
            }
        }
        end
    }

    // The input's end: a last line counts if it has a byte.
    pub(crate) fn finish(&mut self, out: &mut [u8]) -> usize
        requires { 50 ≤ length out.old }
        ensures finishes { Finishes self.old out.old result out.new }
        ensures prefix_len { IsPrefixLen result out.new }
    {
        if self.line.is_empty() {
            return 0;
        }
        obey(&mut self.state, self.line.asked(), out, 0)
    }
}
