// The types that all pieces share. The rules themselves are the definitions in specs/.
#![tactic(auto)]

ghost use Rattle.std.specs.Prelude.{◌≡◌, ◌<◌};
ghost use Rattle.rules.specs.Answers.{number_of, place_of};
ghost use Rattle.rules.specs.Tables.{count, rows};
ghost use Rattle.rules.specs.Rows.{task_row_at, connection_row_at, task_words_of, connection_words_of};

// Small values can be compared and printed. A machine's own, `Task`, `State`, `Step` and `Plan`, derive Clone and Copy alone: nothing asks for more
// of them.

// In the state each task is idle, waiting or started. Idle is first: it is what stands past the last task.
#[derive(Clone, Copy, Debug, PartialEq, Eq)]
pub enum Phase {
    Idle,
    Waiting,
    Started,
}

#[derive(Clone, Copy)]
pub struct Task {
    pub phase: Phase,
}

// A machine in columns: one entry a task (32) or a connection (64), those past the counts unused. It stays in columns: the rules and every law
// of runs speak of them (specs/Views.antt).
#[derive(Clone, Copy)]
pub struct State {
    // The plan, which no call changes: how many tasks and connection rows there are, their values by table position,
    // the order (highest priority first) and the common multiple of the periods.
    pub count: usize,
    pub rows: usize,
    pub periods: [u16; 32],
    pub deadlines: [u16; 32],
    pub computes: [u16; 32],
    pub criticalities: [u8; 32],
    pub enforced: [bool; 32],
    pub senders: [u8; 64],
    pub receivers: [u8; 64],
    pub undelayed: [bool; 64],
    pub order: [u8; 32],
    pub multiple: u32,
    // What the calls change: each task's phase, output word and latest dispatch cycle, each connection's buffer and
    // input word, the cycle of the next tick, and the state's own two marks: whether there was a tick yet, and whether a deadline was missed.
    pub tasks: [Task; 32],
    pub outputs: [u32; 32],
    pub dispatches: [u32; 32],
    pub buffers: [u32; 64],
    pub inputs: [u32; 64],
    pub cycle: u32,
    pub ticked: bool,
    pub halted: bool,
}

// The list of refusals, each with its place where that can be other than 0.
#[derive(Clone, Copy, Debug, PartialEq, Eq)]
pub enum Refusal {
    TaskTable,
    ConnectionTable,
    // The task.
    TaskValue(usize),
    // The row.
    ConnectionValue(usize),
    Uneven(usize),
    // The task.
    Circle(usize),
    // The row.
    Raised(usize),
    Multiple,
    LittleRoom,
    // The byte.
    UnknownMark(usize),
    CutShort(usize),
    TooMany(usize),
    EndWanted(usize),
    NothingRuns,
    Halted,
    OutOfRange,
}

impl Refusal {
    pub fn number(self) -> usize
        ensures { result ≡ number_of self }
    {
        match self {
            Refusal::TaskTable => 1,
            Refusal::ConnectionTable => 2,
            Refusal::TaskValue(_) => 3,
            Refusal::ConnectionValue(_) => 4,
            Refusal::Uneven(_) => 5,
            Refusal::Circle(_) => 6,
            Refusal::Raised(_) => 7,
            Refusal::Multiple => 8,
            Refusal::LittleRoom => 9,
            Refusal::UnknownMark(_) => 10,
            Refusal::CutShort(_) => 11,
            Refusal::TooMany(_) => 12,
            Refusal::EndWanted(_) => 13,
            Refusal::NothingRuns => 14,
            Refusal::Halted => 15,
            Refusal::OutOfRange => 16,
        }
    }

    pub fn place(self) -> usize
        ensures { result ≡ place_of self }
    {
        match self {
            Refusal::TaskValue(task) | Refusal::Circle(task) => task,
            Refusal::ConnectionValue(row) | Refusal::Uneven(row) | Refusal::Raised(row) => row,
            Refusal::UnknownMark(byte)
            | Refusal::CutShort(byte)
            | Refusal::TooMany(byte)
            | Refusal::EndWanted(byte) => byte,
            Refusal::TaskTable
            | Refusal::ConnectionTable
            | Refusal::Multiple
            | Refusal::LittleRoom
            | Refusal::NothingRuns
            | Refusal::Halted
            | Refusal::OutOfRange => 0,
        }
    }
}

// The answer of the executive: Running and Missed with a task, Refused with number and place. A refusal is one of its cases, as 01 has it
// (specs/Answers.antt, answer_says).
#[derive(Clone, Copy, Debug, PartialEq, Eq)]
pub enum Answer {
    Running(usize),
    Idle,
    Missed(usize),
    Refused(Refusal),
}

#[derive(Clone, Copy)]
pub struct Step {
    pub answer: Answer,
    pub state: State,
}

// The answer of the reader: how many tasks and connections it read.
#[derive(Clone, Copy, Debug, PartialEq, Eq)]
pub struct Counts {
    pub tasks: usize,
    pub connections: usize,
}

// The answer of the planner: whether the tables were accepted, the order, both internal numbers of each task by table position, and the
// common multiple; zeros throughout where the tables were refused. So the verdict stands beside the columns: a Result of them would answer no
// zeros (specs/Plan.antt, Refuses).
#[derive(Clone, Copy)]
pub struct Plan {
    pub verdict: Result<(), Refusal>,
    pub order: [u8; 32],
    pub deadlines: [u32; 32],
    pub criticalities: [u8; 32],
    pub multiple: u32,
}

// The five words of a task, in the table's order. A flag stays a word, as a connection's kind does: the reader judges no value, and the planner
// refuses those over 1.
#[derive(Clone, Copy, Debug, PartialEq, Eq)]
pub struct TaskRow {
    pub period: u16,
    pub deadline: u16,
    pub compute: u16,
    pub criticality: u16,
    pub flag: u16,
}

// By `at` and `words` and by no From: a place in the table goes with the one, and the table's order with the other.
impl TaskRow {
    // Task i of a table.
    pub fn at(tasks: &[u16], i: usize) -> TaskRow
        requires { i < count tasks.now }
        ensures { result ≡ task_row_at tasks.now i }
    {
        TaskRow {
            period: tasks[i * 5],
            deadline: tasks[i * 5 + 1],
            compute: tasks[i * 5 + 2],
            criticality: tasks[i * 5 + 3],
            flag: tasks[i * 5 + 4],
        }
    }

    pub fn words(self) -> [u16; 5]
        ensures { result ≡ task_words_of self }
    {
        [
            self.period,
            self.deadline,
            self.compute,
            self.criticality,
            self.flag,
        ]
    }
}

// The three words of a connection, in the table's order.
#[derive(Clone, Copy, Debug, PartialEq, Eq)]
pub struct ConnectionRow {
    pub sender: u16,
    pub receiver: u16,
    pub kind: u16,
}

impl ConnectionRow {
    // Row c of a table.
    pub fn at(connections: &[u16], c: usize) -> ConnectionRow
        requires { c < rows connections.now }
        ensures { result ≡ connection_row_at connections.now c }
    {
        ConnectionRow {
            sender: connections[c * 3],
            receiver: connections[c * 3 + 1],
            kind: connections[c * 3 + 2],
        }
    }

    pub fn words(self) -> [u16; 3]
        ensures { result ≡ connection_words_of self }
    {
        [self.sender, self.receiver, self.kind]
    }
}
