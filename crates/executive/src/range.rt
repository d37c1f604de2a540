// Refusals 16 and 15. The tests of times, recorded cycles and rows walk their columns without a branch, so that the compiler takes
// several places at a time.
ghost use Rattle.std.specs.Prelude.{◌≡◌, Bool, true, ℕ, ◌<◌, ◌≤◌};
ghost use Rattle.rules.specs.Counting.{all_below};
ghost use Rattle.rules.specs.Range.{sizes_fit, times_fit, dispatch_fits, rows_fit, order_fits, tasks_fit, in_range};
ghost use Rattle.executive.specs.Found.{accepts};
ghost use Rattle.executive.specs.Marks.{marked};

use rules::{Refusal, State};

// "a count .. outside the sizes", "a common multiple outside 1 to 720,720, a cycle .. not below it".
fn sizes_fit(state: &State) -> bool
    ensures { result ≡ sizes_fit state.now }
{
    (1..=32).contains(&state.count)
        && state.rows <= 64
        && (1..=720720).contains(&state.multiple)
        && state.cycle < state.multiple
}

// Whether each place below the count fits. Without a branch, so that the compiler takes several places at a time.
fn all_fit<F: Fn(usize) -> bool>(count: usize, fits: F) -> bool
    requires { (i : ℕ) → i < count → F.pre fits i }
    ensures { (p : ℕ → Bool) → ((i : ℕ) (b : Bool) → i < count → F.post fits i b → b ≡ p i) → result ≡ all_below p count }
{
    let mut all = true;
    for i in 0..count {
        all &= fits(i);
    }
    all
}

// The tests below owe that there are few enough tasks, and say so one by one: whether a state is a `Machine` is what they find out.

// "the ranges of 3".
fn times_fit(state: &State) -> bool
    requires { state.now.count ≤ 32 }
    ensures { result ≡ all_below (times_fit state.now) state.now.count }
{
    all_fit(state.count, |i| {
        let period = state.periods[i];
        let deadline = state.deadlines[i];
        let compute = state.computes[i];
        (1 <= compute) & (compute <= deadline) & (deadline <= period) & (period <= 10000)
    })
}

// "a .. recorded dispatch cycle not below it".
fn dispatches_fit(state: &State) -> bool
    requires { state.now.count ≤ 32 }
    ensures { result ≡ all_below (dispatch_fits state.now) state.now.count }
{
    all_fit(state.count, |i| state.dispatches[i] < state.multiple)
}

// "the ranges of .. 4".
fn rows_fit(state: &State) -> bool
    requires { (state.now.count ≤ 32) × (state.now.rows ≤ 64) }
    ensures { result ≡ rows_fit state.now }
{
    let count = state.count as u8;
    all_fit(state.rows, |c| {
        (state.senders[c] < count) & (state.receivers[c] < count)
    })
}

// "an order that does not name each task once": each place names a task, and each task has a place.
fn order_fits(state: &State) -> bool
    requires { state.now.count ≤ 32 }
    ensures { result ≡ order_fits state.now }
{
    let mut named = [false; 32];
    for &task in &state.order[..state.count] {
        let task = task as usize;
        if state.count <= task {
            return false;
        }
        named[task] = true;
    }
    all_fit(state.count, |i| named[i])
}

// The sizes first: with them the columns can be walked.
fn in_range(state: &State) -> bool
    ensures { result ≡ in_range state.now }
{
    sizes_fit(state)
        && (times_fit(state) & dispatches_fit(state) & rows_fit(state) & order_fits(state))
}

// "Tick and completion test 16, 15 .. in that order".
pub(crate) fn accepts(state: &State) -> Result<(), Refusal>
    ensures { result ≡ accepts state.now }
{
    if !in_range(state) {
        return Err(Refusal::OutOfRange);
    }
    if state.halted {
        return Err(Refusal::Halted);
    }
    Ok(())
}
