// Fresh start: the columns of the tables, and all at rest.
ghost use Rattle.std.specs.Prelude.{◌≡◌, []};
ghost use Rattle.rules.specs.Fresh.{no_plan, fresh_state, halted_zeros};
ghost use Rattle.executive.specs.Start.{Tabled};

use rules::{ConnectionRow, Phase, Plan, State, Task, TaskRow};

// "all words and dispatch cycles 0, all tasks idle, cycle 0, no tick yet, not halted", with no tables and no plan.
fn at_rest() -> State
    ensures { result ≡ fresh_state [] [] no_plan }
{
    State {
        count: 0,
        rows: 0,
        periods: [0; 32],
        deadlines: [0; 32],
        computes: [0; 32],
        criticalities: [0; 32],
        enforced: [false; 32],
        senders: [0; 64],
        receivers: [0; 64],
        undelayed: [false; 64],
        order: [0; 32],
        multiple: 0,
        tasks: [Task { phase: Phase::Idle }; 32],
        outputs: [0; 32],
        dispatches: [0; 32],
        buffers: [0; 64],
        inputs: [0; 64],
        cycle: 0,
        ticked: false,
        halted: false,
    }
}

// "A fresh state", of the tables and their plan. (A literal takes neither an array out of another value nor the rest of a call, so both have a name
// first.)
pub(crate) fn fresh_state(tasks: &[u16], connections: &[u16], plan: Plan) -> State
    requires { Tabled tasks.now connections.now }
    ensures { result ≡ fresh_state tasks.now connections.now plan }
{
    let rest = at_rest();
    let order = plan.order;
    let mut state = State {
        count: tasks.len() / 5,
        rows: connections.len() / 3,
        order,
        multiple: plan.multiple,
        ..rest
    };
    for i in 0..state.count {
        let row = TaskRow::at(tasks, i);
        state.periods[i] = row.period;
        state.deadlines[i] = row.deadline;
        state.computes[i] = row.compute;
        state.criticalities[i] = row.criticality as u8;
        state.enforced[i] = row.flag == 1;
    }
    for c in 0..state.rows {
        let row = ConnectionRow::at(connections, c);
        state.senders[c] = row.sender as u8;
        state.receivers[c] = row.receiver as u8;
        state.undelayed[c] = row.kind == 1;
    }
    state
}

// "a refused fresh start answers a halted state of zeros, all idle, no tick yet"
pub(crate) fn halted_zeros() -> State
    ensures { result ≡ halted_zeros }
{
    let rest = at_rest();
    State {
        halted: true,
        ..rest
    }
}
