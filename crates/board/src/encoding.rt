// A state into lent words, and a plan: rows of words one after the other, and columns. A state's words are an array, so that there is room
// for it without a clause; `store` alone takes the lent words, behind a `decode` that found enough of them.
ghost use Rattle.std.specs.Prelude.{◌≡◌, ◌-◌, ◌≤◌, length};
ghost use Rattle.rules.specs.Sizes.{most_tasks, most_rows, most_task_words, most_row_words};
ghost use Rattle.board.specs.Layout.{tasks_at, rows_at, phases_at, plan_size, state_size};
ghost use Rattle.board.specs.Rows.{rows_of, Lays, Part};
ghost use Rattle.board.specs.PlanWords.{planned_in};
ghost use Rattle.board.specs.StateWords.{task_row, connection_row, head_words, table_words, moving_words, stored_in, Counted};

use crate::columns::{Element, put};
use crate::layout;
use rules::{Plan, State};

// A row's words stand in as many columns of the state, so the loops over rows go by number. Tasks and connections have a function each: their
// rows are of five columns and of three, and one loop for both would take the row as a closure with a contract of its own.
fn put_tasks(words: &mut [u32; layout::STATE_WORDS], state: &State)
    ensures { Lays tasks_at (rows_of (task_row state.now) most_tasks) most_task_words words.old words.new }
{
    for k in 0..32 {
        let row = [
            state.periods[k].to_word(),
            state.deadlines[k].to_word(),
            state.computes[k].to_word(),
            state.criticalities[k].to_word(),
            state.enforced[k].to_word(),
        ];
        put(words, layout::PERIODS + k * layout::TASK_WIDTH, &row);
    }
}

fn put_rows(words: &mut [u32; layout::STATE_WORDS], state: &State)
    ensures { Lays rows_at (rows_of (connection_row state.now) most_rows) most_row_words words.old words.new }
{
    for c in 0..64 {
        let row = [
            state.senders[c].to_word(),
            state.receivers[c].to_word(),
            state.undelayed[c].to_word(),
        ];
        put(words, layout::SENDERS + c * layout::ROW_WIDTH, &row);
    }
}

#[tactic(auto, unfolding(crate::specs::StateWords::head_words))]
fn put_head(words: &mut [u32; layout::STATE_WORDS], state: &State)
    requires { Counted state.now }
    ensures { Lays 0 (head_words state.now) tasks_at words.old words.new }
{
    let head = [
        state.count as u32,
        state.rows as u32,
        state.multiple,
        state.cycle,
        state.ticked.to_word(),
        state.halted.to_word(),
    ];
    put(words, layout::COUNT, &head);
}

fn put_tables(words: &mut [u32; layout::STATE_WORDS], state: &State)
    ensures { Lays tasks_at (table_words state.now) (phases_at - tasks_at) words.old words.new }
{
    put_tasks(words, state);
    put_rows(words, state);
    put(words, layout::ORDER, &state.order);
}

fn put_moving(words: &mut [u32; layout::STATE_WORDS], state: &State)
    ensures { Lays phases_at (moving_words state.now) (state_size - phases_at) words.old words.new }
{
    put(words, layout::PHASES, &state.tasks);
    put(words, layout::OUTPUTS, &state.outputs);
    put(words, layout::DISPATCHES, &state.dispatches);
    put(words, layout::BUFFERS, &state.buffers);
    put(words, layout::INPUTS, &state.inputs);
}

pub(crate) fn put_state(words: &mut [u32; layout::STATE_WORDS], state: &State)
    requires { Counted state.now }
    ensures { words.new ≡ stored_in words.old state.now }
{
    put_head(words, state);
    put_tables(words, state);
    put_moving(words, state);
}

// The state where the words hold its tables already, as after a call: the tables never change.
fn put_changes(words: &mut [u32; layout::STATE_WORDS], state: &State)
    requires { Counted state.now × Part words.old tasks_at (phases_at - tasks_at) (table_words state.now) }
    ensures { words.new ≡ stored_in words.old state.now }
{
    put_head(words, state);
    put_moving(words, state);
}

// The same in front of lent words that held a state, so that there is room for it.
pub(crate) fn store(words: &mut [u32], state: &State)
    requires { (state_size ≤ length words.old) × (Counted state.now × Part words.old tasks_at (phases_at - tasks_at) (table_words state.now)) }
    ensures { words.new ≡ stored_in words.old state.now }
{
    if let Some(front) = words.first_chunk_mut::<{ layout::STATE_WORDS }>() {
        put_changes(front, state);
    }
}

pub(crate) fn put_plan(words: &mut [u32], plan: &Plan)
    requires { plan_size ≤ length words.old }
    ensures { words.new ≡ planned_in words.old plan.now }
{
    words[0] = plan.multiple;
    put(words, layout::PLAN_ORDER, &plan.order);
    put(words, layout::PLAN_DEADLINES, &plan.deadlines);
    put(words, layout::PLAN_CRITICALITIES, &plan.criticalities);
}
