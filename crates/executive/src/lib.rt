// The executive: fresh start on any two tables, tick and completion on any state. Each step stands in a file of its own.
#![tactic(auto)]

ghost use Rattle.std.specs.Prelude.{◌≡◌};
ghost use Rattle.rules.specs.Calls.{tick_of, complete_of};
ghost use Rattle.rules.specs.Answers.{StepIs};
ghost use Rattle.rules.specs.Fresh.{FreshIs};
ghost use Rattle.rules.specs.Steps.{step};

use rules::{Answer, State, Step};

mod start; // a fresh state
mod range; // refusals 16 and 15
mod machine; // a state in range, lent for one call
mod deadlines; // step 1 of a tick, and step 5
mod exchange; // steps 2 and 3
mod choice; // step 4
mod ticking; // all five
mod completion; // the end of the running task

use machine::Machine;
use range::accepts;
use start::{fresh_state, halted_zeros};

pub fn fresh(tasks: &[u16], connections: &[u16]) -> Step
    ensures { FreshIs tasks.now connections.now result }
{
    let plan = planner::plan(tasks, connections);
    match plan.verdict {
        Ok(()) => Step {
            answer: Answer::Idle,
            state: fresh_state(tasks, connections, plan),
        },
        Err(refusal) => Step {
            answer: Answer::Refused(refusal),
            state: halted_zeros(),
        },
    }
}

// "Tick and completion test 16, 15 .. in that order"; "a refused tick or completion returns the state it was given". Each makes its machine by
// itself: a function that did so for both would have to say what becomes of the lent state, refused and not, in two clauses more.
pub fn tick(state: &mut State) -> Answer
    ensures { StepIs (tick_of state.old) (step result state.new) }
{
    if let Err(refusal) = accepts(state) {
        return Answer::Refused(refusal);
    }
    let mut machine = Machine { state };
    machine.tick()
}

pub fn complete(state: &mut State, word: u32) -> Answer
    ensures { StepIs (complete_of state.old word) (step result state.new) }
{
    if let Err(refusal) = accepts(state) {
        return Answer::Refused(refusal);
    }
    let mut machine = Machine { state };
    machine.complete(word)
}
