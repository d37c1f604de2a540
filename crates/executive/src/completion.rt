// Completion: the end of the running task.
ghost use Rattle.std.specs.Prelude.{◌≡◌, ◌<◌};
ghost use Rattle.rules.specs.Steps.{ended_at, completing};
ghost use Rattle.executive.specs.Machine.{after, stepped};

use crate::machine::Machine;
use rules::{Answer, Phase, Refusal};

impl Machine<'_> {
    // "the word is its output, it becomes idle, and for each undelayed connection from it whose receiver has the same recorded cycle
    // the word goes to the buffer"
    fn end(&mut self, task: usize, word: u32)
        requires { task < self.old.state.now.count }
        ensures { self.new.state ≡ after (λ s. ended_at s task word) self.old.state }
    {
        let state = &mut *self.state;
        let here = state.dispatches[task];
        for c in 0..state.rows {
            let receiver = state.receivers[c] as usize;
            if state.undelayed[c]
                & (state.senders[c] as usize == task)
                & (state.dispatches[receiver] == here)
            {
                state.buffers[c] = word;
            }
        }
        state.outputs[task] = word;
        state.tasks[task].phase = Phase::Idle;
    }

    // "Completion with a word ends the running task .. Then choose as in 4". Where no task runs nothing changes, and the answer is
    // refusal 14.
    pub(crate) fn complete(&mut self, word: u32) -> Answer
        ensures { (result, self.new.state) ≡ stepped (λ s. completing s word) self.old.state }
    {
        let Some(task) = self.running_task() else {
            return Answer::Refused(Refusal::NothingRuns);
        };
        self.end(task, word);
        self.choose()
    }
}
