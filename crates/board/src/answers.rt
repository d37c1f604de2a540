// An answer as one number: its kind, 256 times its number and 65,536 times its value.
ghost use Rattle.std.specs.Prelude.{◌≡◌, ℕ};
ghost use Rattle.rules.specs.Answers.{Told, told, refusal_says, answer_says, verdict_says, read_says};
ghost use Rattle.board.specs.Codes.{coded, kind_number, Narrow};

use rules::{Answer, Counts, Refusal};

// The kinds, with the numbers that the C interface has for them.
#[derive(Clone, Copy, Debug, PartialEq, Eq)]
enum Kind {
    Refused = 0,
    Running = 1,
    Idle = 2,
    Missed = 3,
    Accepted = 4,
    Read = 5,
}

fn code(kind: Kind, number: usize, value: usize) -> u64
    requires { Narrow (told (kind_number kind) number value) }
    ensures { result ≡ coded (told (kind_number kind) number value) }
{
    kind as u64 + 256 * (number as u64) + 65536 * (value as u64)
}

// What a call may answer.
pub(crate) trait Coded {
    ghost says: { Self → Told };

    fn code(self) -> u64
        requires { Narrow (says self) }
        ensures { result ≡ coded (says self) };
}

impl Coded for Refusal {
    ghost says = { refusal_says };

    fn code(self) -> u64 {
        code(Kind::Refused, self.number(), self.place())
    }
}

impl Coded for Answer {
    ghost says = { answer_says };

    fn code(self) -> u64 {
        match self {
            Answer::Refused(refusal) => refusal.code(),
            Answer::Running(task) => code(Kind::Running, 0, task),
            Answer::Idle => code(Kind::Idle, 0, 0),
            Answer::Missed(task) => code(Kind::Missed, 0, task),
        }
    }
}

// What the planner answers.
impl Coded for Result<(), Refusal> {
    ghost says = { verdict_says };

    fn code(self) -> u64 {
        match self {
            Ok(()) => code(Kind::Accepted, 0, 0),
            Err(refusal) => refusal.code(),
        }
    }
}

// What the reader answers.
impl Coded for Result<Counts, Refusal> {
    ghost says = { read_says };

    fn code(self) -> u64 {
        match self {
            Ok(read) => code(Kind::Read, read.tasks, read.connections),
            Err(refusal) => refusal.code(),
        }
    }
}
