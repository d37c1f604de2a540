// The five steps of a tick.
ghost use Rattle.std.specs.Prelude.{◌≡◌, ◌<◌};
ghost use Rattle.rules.specs.Steps.{ticking};
ghost use Rattle.executive.specs.Machine.{stepped};

use crate::machine::Machine;
use rules::Answer;

impl Machine<'_> {
    // "Tick at cycle t, in this order".
    pub(crate) fn tick(&mut self) -> Answer
        ensures { (result, self.new.state) ≡ stepped ticking self.old.state }
    {
        let marked = self.marks();
        if let Some(task) = self.missing_task(&marked.due) {
            self.state.halted = true;
            return Answer::Missed(task);
        }
        self.deliver(&marked.due);
        self.dispatch(&marked.released);
        let answer = self.choose();
        self.advance();
        answer
    }
}
