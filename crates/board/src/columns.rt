// Columns of elements in lent words: each element stands in a word, the first at a place and the others some places apart.
ghost use Rattle.std.specs.Prelude.{◌≡◌, false, true, SomeIff, ℕ, map, ◌+◌, ◌≤◌, ◌<◌, length, replicate};
ghost use Rattle.std.proofs.lemmas.List.Edits.{sets};
ghost use Rattle.board.specs.Widths.{wholes, times, bytes, marks, phases};
ghost use Rattle.board.specs.Columns.{taken, same, cut, Within, AllBelow};
ghost use Rattle.board.specs.Marks.{mark_word, mark_from, task_word, task_from, idle_task};
ghost use Rattle.board.specs.Elements.{Encodes, wholes_encode, times_encode, bytes_encode, marks_encode, phases_encode};

use rules::{Phase, Task};

// What stands in a word. Not every word is one's: those at the limit and above it are not.
pub(crate) trait Element: Copy {
    // what stands in a column before it is read
    ghost BLANK: { Self };

    const BLANK: Self;

    ghost limit: { ℕ };

    ghost value_of: { ℕ → Self };

    ghost word_of: { Self → ℕ };

    ghost laws: { Encodes limit value_of word_of };

    fn from_word(word: u32) -> Option<Self>
        ensures { SomeIff result (word < limit) (value_of word) };

    fn to_word(self) -> u32
        ensures { result ≡ word_of self };
}

impl Element for u32 {
    ghost BLANK = { 0 };

    const BLANK: u32 = 0;

    ghost limit = { wholes };

    ghost value_of = { same };

    ghost word_of = { same };

    ghost laws = { wholes_encode };

    fn from_word(word: u32) -> Option<u32> {
        Some(word)
    }

    fn to_word(self) -> u32 {
        self
    }
}

impl Element for u16 {
    ghost BLANK = { 0 };

    const BLANK: u16 = 0;

    ghost limit = { times };

    ghost value_of = { cut times };

    ghost word_of = { same };

    ghost laws = { times_encode };

    fn from_word(word: u32) -> Option<u16> {
        u16::try_from(word).ok()
    }

    fn to_word(self) -> u32 {
        u32::from(self)
    }
}

impl Element for u8 {
    ghost BLANK = { 0 };

    const BLANK: u8 = 0;

    ghost limit = { bytes };

    ghost value_of = { cut bytes };

    ghost word_of = { same };

    ghost laws = { bytes_encode };

    fn from_word(word: u32) -> Option<u8> {
        u8::try_from(word).ok()
    }

    fn to_word(self) -> u32 {
        u32::from(self)
    }
}

impl Element for bool {
    ghost BLANK = { false };

    const BLANK: bool = false;

    ghost limit = { marks };

    ghost value_of = { mark_from };

    ghost word_of = { mark_word };

    ghost laws = { marks_encode };

    // The numbers are the C interface's, and the library converts no u32 to a bool.
    fn from_word(word: u32) -> Option<bool> {
        match word {
            0 => Some(false),
            1 => Some(true),
            _ => None,
        }
    }

    fn to_word(self) -> u32 {
        u32::from(self)
    }
}

// A task stands by its phase. The numbers of the phases are the C interface's, and the library has no conversion between them and an enum, so
// both matches spell them.
impl Element for Task {
    ghost BLANK = { idle_task };

    const BLANK: Task = Task { phase: Phase::Idle };

    ghost limit = { phases };

    ghost value_of = { task_from };

    ghost word_of = { task_word };

    ghost laws = { phases_encode };

    fn from_word(word: u32) -> Option<Task> {
        let phase = match word {
            0 => Phase::Idle,
            1 => Phase::Waiting,
            2 => Phase::Started,
            _ => return None,
        };
        Some(Task { phase })
    }

    fn to_word(self) -> u32 {
        match self.phase {
            Phase::Idle => 0,
            Phase::Waiting => 1,
            Phase::Started => 2,
        }
    }
}

// A column out of the words, unless one of them is no element's.
pub(crate) fn column<T: Element, const N: usize>(
    words: &[u32],
    start: usize,
    apart: usize,
) -> Option<[T; N]>
    requires { Within start apart N (length words.now) }
    ensures { SomeIff result (AllBelow words.now start apart T.limit N) (taken T.value_of words.now start apart N (replicate N T.BLANK)) }
{
    let mut column = [T::BLANK; N];
    // The loop goes by number: the word of element k stands at `start + k * apart`. Every word is read, and the test comes last: with a
    // loop that may end early a tick through the archive took 4,448 instructions, and 2,495 where every word is read.
    let mut fit = true;
    for k in 0..N {
        let element = T::from_word(words[start + k * apart]);
        fit &= element.is_some();
        column[k] = element.unwrap_or(T::BLANK);
    }
    fit.then_some(column)
}

// Puts a column into the words, side by side.
pub(crate) fn put<T: Element>(words: &mut [u32], start: usize, column: &[T])
    requires { start + length column.now ≤ length words.old }
    ensures { words.new ≡ sets words.old start (map T.word_of column.now) }
{
    for (k, element) in column.iter().enumerate() {
        words[start + k] = element.to_word();
    }
}
