// The common multiple of the periods.
ghost use Rattle.std.specs.Prelude.{◌≤◌, ◌<◌};
ghost use Rattle.rules.specs.Sizes.{most_multiple};
ghost use Rattle.planner.specs.Multiples.{Sized, Meet, Multiple};

use rules::TaskRow;

// The largest multiple that a plan may have.
const MOST: u32 = 720720;

// The least common multiple of two numbers, where it is at most 720,720: the first multiple of the larger that the smaller divides.
fn multiple_of_two(a: u32, b: u32) -> Option<u32>
    requires { (0 < a) × (a ≤ most_multiple) × (0 < b) × (b ≤ most_multiple) }
    ensures { Meet a b result }
{
    let larger = a.max(b);
    let smaller = a.min(b);
    // A `for` and no `find`: that the multiples were tried in turn is its invariant, and over `step_by` with `find` the proof did not close.
    for multiple in (larger..=MOST).step_by(larger as usize) {
        if multiple % smaller == 0 {
            return Some(multiple);
        }
    }
    None
}

// The least common multiple of all periods, where it is at most 720,720.
pub(crate) fn multiple_of(tasks: &[u16]) -> Option<u32>
    requires { Sized tasks.now }
    ensures { Multiple tasks.now result }
{
    let mut multiple = 1;
    for i in 0..tasks.len() / 5 {
        multiple = multiple_of_two(multiple, TaskRow::at(tasks, i).period as u32)?;
    }
    Some(multiple)
}
