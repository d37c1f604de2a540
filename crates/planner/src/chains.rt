// The longest chain of undelayed connections between each two tasks.
ghost use Rattle.std.specs.Prelude.{◌≡◌, ◌≤◌, ◌<◌, MatchOption};
ghost use Rattle.rules.specs.Sizes.{most_tasks};
ghost use Rattle.rules.specs.Chains.{Link};
ghost use Rattle.rules.specs.Counting.{map_below};
ghost use Rattle.planner.specs.Places.{IsFirst};
ghost use Rattle.planner.specs.Rounds.{Named, Stepped, ChainsFrom, Square, circles, noted};

use rules::ConnectionRow;

// The connections, each of which names two of 32 tasks.
#[derive(Clone, Copy)]
pub(crate) struct Links<'a> {
    pub(crate) connections: &'a [u16],
    ghost named: { Named connections.now },
}

// Stores k at each marked task.
fn note(best: &mut [u8; 32], marks: &[bool; 32], k: u8)
    ensures { best.new ≡ map_below (noted marks.now k) 32 best.old }
{
    for (j, marked) in marks.iter().enumerate() {
        if *marked {
            best[j] = k;
        }
    }
}

impl Links<'_> {
    // The tasks to which one connection more leads from the marked ones.
    fn step(self, marks: &[bool; 32]) -> [bool; 32]
        ensures { Stepped (Link self.entry.connections.now) marks.now result }
    {
        let mut next = [false; 32];
        for c in 0..self.connections.len() / 3 {
            let row = ConnectionRow::at(self.connections, c);
            if row.kind == 1 && marks[row.sender as usize] {
                next[row.receiver as usize] = true;
            }
        }
        next
    }

    // The longest chain of at most n connections from task i to each task. Where no chain has k connections none has more.
    fn chains_from(self, n: u8, i: usize) -> [u8; 32]
        requires { i < most_tasks }
        ensures { ChainsFrom (Link self.entry.connections.now) n i result }
    {
        let mut marks = [false; 32];
        marks[i] = true;
        let mut best = [0; 32];
        for k in 0..n {
            marks = self.step(&marks);
            if !marks.contains(&true) {
                break;
            }
            note(&mut best, &marks, k + 1);
        }
        best
    }

    // The square of the chains between n tasks, by value: memory is fixed.
    pub(crate) fn square(self, n: u8) -> [[u8; 32]; 32]
        requires { n ≤ most_tasks }
        ensures { Square (Link self.entry.connections.now) n result }
    {
        let mut chains = [[0; 32]; 32];
        for i in 0..n as usize {
            chains[i] = self.chains_from(n, i);
        }
        chains
    }
}

// The first of n tasks to which a chain returns.
pub(crate) fn first_circle(chains: &[[u8; 32]; 32], n: usize) -> Option<usize>
    requires { n ≤ most_tasks }
    ensures { IsFirst (circles chains.now) n result }
{
    (0..n).find(|task| 0 < chains[*task][*task])
}
