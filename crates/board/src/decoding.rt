// A state out of lent words: each column from its place, behind the six words of the head.
ghost use Rattle.std.specs.Prelude.{◌≡◌, true, SomeIff};
ghost use Rattle.board.specs.StateWords.{encodes, state_from};

use crate::columns::column;
use crate::layout;
use rules::State;

// The state that the words encode, if there are enough of them and each fits its place.
pub(crate) fn decode(words: &[u32]) -> Option<State>
    ensures { SomeIff result (encodes words.now ≡ true) (state_from words.now) }
{
    if words.len() < layout::STATE_WORDS {
        return None;
    }
    let marks: [bool; 2] = column(words, layout::MARKS, 1)?;
    Some(State {
        count: words[layout::COUNT] as usize,
        rows: words[layout::ROWS] as usize,
        periods: column(words, layout::PERIODS, layout::TASK_WIDTH)?,
        deadlines: column(words, layout::DEADLINES, layout::TASK_WIDTH)?,
        computes: column(words, layout::COMPUTES, layout::TASK_WIDTH)?,
        criticalities: column(words, layout::CRITICALITIES, layout::TASK_WIDTH)?,
        enforced: column(words, layout::ENFORCED, layout::TASK_WIDTH)?,
        senders: column(words, layout::SENDERS, layout::ROW_WIDTH)?,
        receivers: column(words, layout::RECEIVERS, layout::ROW_WIDTH)?,
        undelayed: column(words, layout::UNDELAYED, layout::ROW_WIDTH)?,
        order: column(words, layout::ORDER, 1)?,
        multiple: words[layout::MULTIPLE],
        tasks: column(words, layout::PHASES, 1)?,
        outputs: column(words, layout::OUTPUTS, 1)?,
        dispatches: column(words, layout::DISPATCHES, 1)?,
        buffers: column(words, layout::BUFFERS, 1)?,
        inputs: column(words, layout::INPUTS, 1)?,
        cycle: words[layout::CYCLE],
        ticked: marks[0],
        halted: marks[1],
    })
}
