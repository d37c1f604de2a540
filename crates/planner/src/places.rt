// The two tables, and where the refusals 3, 4, 5 and 7 stand in them.
ghost use Rattle.std.specs.Prelude.{◌≡◌, ◌<◌};
ghost use Rattle.rules.specs.Tables.{count, rows};
ghost use Rattle.planner.specs.Places.{fit, joins, uneven, raised, Joined, AllJoined, IsFirst, misfit_at, stray_at, undelayed_at, uneven_at, raised_at};

use rules::{ConnectionRow, TaskRow};

// Whether a task's values are within their sizes.
fn fit(task: TaskRow) -> bool
    ensures { result ≡ fit task }
{
    (1..=10000).contains(&task.period)
        && (1..=task.period).contains(&task.deadline)
        && (1..=task.deadline).contains(&task.compute)
        && task.criticality <= 255
        && task.flag <= 1
}

// Whether a row joins two of so many tasks, by a known kind.
fn joins(row: ConnectionRow, count: usize) -> bool
    ensures { result ≡ joins row count }
{
    (row.sender as usize) < count && (row.receiver as usize) < count && row.kind <= 1
}

// Whether neither period divides the other.
fn uneven(from: TaskRow, to: TaskRow) -> bool
    requires { (0 < from.period) × (0 < to.period) }
    ensures { result ≡ uneven from to }
{
    to.period % from.period != 0 && from.period % to.period != 0
}

// Whether the sender is less critical than the receiver, with its flag 0.
fn raised(from: TaskRow, to: TaskRow) -> bool
    ensures { result ≡ raised from to }
{
    (to.criticality < from.criticality) && from.flag == 0
}

// Both tables, as they are lent. That a row joins two tasks (`Joined`) is of one row, so it stands with the functions of a row.
#[derive(Clone, Copy)]
pub(crate) struct Tables<'a> {
    pub(crate) tasks: &'a [u16],
    pub(crate) connections: &'a [u16],
}

impl Tables<'_> {
    // How many tasks there are.
    pub(crate) fn count(self) -> usize
        ensures { result ≡ count self.entry.tasks.now }
    {
        self.tasks.len() / 5
    }

    // How many rows there are.
    fn rows(self) -> usize
        ensures { result ≡ rows self.entry.connections.now }
    {
        self.connections.len() / 3
    }

    // The sender and the receiver of row c where it is undelayed.
    fn undelayed(self, c: usize) -> Option<(TaskRow, TaskRow)>
        requires { Joined self c }
        ensures { result ≡ undelayed_at self.entry c }
    {
        let row = ConnectionRow::at(self.connections, c);
        if row.kind != 1 {
            return None;
        }
        Some((
            TaskRow::at(self.tasks, row.sender as usize),
            TaskRow::at(self.tasks, row.receiver as usize),
        ))
    }

    // Where 3 stands: the first task with a value outside its size.
    pub(crate) fn first_misfit(self) -> Option<usize>
        ensures { IsFirst (misfit_at self.entry) (count self.entry.tasks.now) result }
    {
        (0..self.count()).find(|i| !fit(TaskRow::at(self.tasks, *i)))
    }

    // Where 4 stands: the first row that joins no two tasks by a known kind.
    pub(crate) fn first_stray(self) -> Option<usize>
        ensures { IsFirst (stray_at self.entry) (rows self.entry.connections.now) result }
    {
        let count = self.count();
        (0..self.rows()).find(|c| !joins(ConnectionRow::at(self.connections, *c), count))
    }

    // Where 5 stands: the first undelayed row with neither period dividing the other.
    pub(crate) fn first_uneven(self) -> Option<usize>
        requires { AllJoined self }
        ensures { IsFirst (uneven_at self.entry) (rows self.entry.connections.now) result }
    {
        (0..self.rows()).find(|c| self
            .undelayed(*c)
            .is_some_and(|(from, to)| uneven(from, to)))
    }

    // Where 7 stands: the first undelayed row from a less critical task with its flag 0 to a more critical one.
    pub(crate) fn first_raised(self) -> Option<usize>
        requires { AllJoined self }
        ensures { IsFirst (raised_at self.entry) (rows self.entry.connections.now) result }
    {
        (0..self.rows()).find(|c| self
            .undelayed(*c)
            .is_some_and(|(from, to)| raised(from, to)))
    }
}
