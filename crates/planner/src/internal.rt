// The internal deadline and criticality of each task.
ghost use Rattle.std.specs.Prelude.{◌≡◌, ◌<◌};
ghost use Rattle.rules.specs.Tables.{count};
ghost use Rattle.planner.specs.Internal.{Workable, NumbersAre, ColumnsAre};

use rules::TaskRow;

#[derive(Clone, Copy)]
struct Numbers {
    deadline: u32,
    criticality: u8,
}

// The two columns of a plan, side by side as a plan has them.
#[derive(Clone, Copy)]
pub(crate) struct Columns {
    pub(crate) deadlines: [u32; 32],
    pub(crate) criticalities: [u8; 32],
}

// The tasks and the longest chains between them.
#[derive(Clone, Copy)]
pub(crate) struct Chained<'a> {
    pub(crate) tasks: &'a [u16],
    pub(crate) chains: &'a [[u8; 32]; 32],
    ghost workable: { Workable tasks.now chains.now },
}

impl Chained<'_> {
    // Both numbers of task i: the least of its own and those of the tasks it reaches, a deadline less the chain to it.
    fn numbers(self, i: usize) -> Numbers
        requires { i < count self.tasks.now }
        ensures { NumbersAre self.entry.tasks.now self.entry.chains.now i result }
    {
        let own = TaskRow::at(self.tasks, i);
        let mut deadline = (own.deadline as u32) * 64;
        let mut criticality = own.criticality;
        for j in 0..self.tasks.len() / 5 {
            let chain = self.chains[i][j] as u32;
            if 0 < chain {
                let task = TaskRow::at(self.tasks, j);
                deadline = deadline.min((task.deadline as u32) * 64 - chain);
                criticality = criticality.min(task.criticality);
            }
        }
        Numbers {
            deadline,
            criticality: criticality as u8,
        }
    }

    // Both numbers of each task.
    pub(crate) fn columns(self) -> Columns
        ensures { ColumnsAre self.entry.tasks.now self.entry.chains.now result }
    {
        let mut deadlines = [0; 32];
        let mut criticalities = [0; 32];
        for i in 0..self.tasks.len() / 5 {
            let numbers = self.numbers(i);
            deadlines[i] = numbers.deadline;
            criticalities[i] = numbers.criticality;
        }
        Columns {
            deadlines,
            criticalities,
        }
    }
}
