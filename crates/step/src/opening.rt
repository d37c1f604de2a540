// What the machine file gives: its fresh start, or its refusal.
ghost use Rattle.step.specs.Opening.{OpenIs};

use reader::Tables;
use rules::{Answer, Step};

// A refused file has the state of a fresh start that is refused: halted, all zeros. So the answer is a step, of which `OpenIs` speaks, and no
// Result of a state.
pub(crate) fn opened(file: &[u8]) -> Step
    ensures { OpenIs file.now result }
{
    match Tables::of(file) {
        Ok(tables) => executive::fresh(tables.tasks(), tables.connections()),
        Err(refusal) => Step {
            answer: Answer::Refused(refusal),
            state: executive::fresh(&[], &[]).state,
        },
    }
}
