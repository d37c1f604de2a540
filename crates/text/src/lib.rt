// The lines that the programs print (01, "Numbers from the bench"), each put at a place of a lent buffer. A line that does not fit
// there changes nothing. The buffer and the place stand side by side, and in no struct, since that is what the public promises
// (`Line`) are said of.
#![tactic(auto)]

ghost use Rattle.std.specs.Prelude.{◌≡◌, ◌++◌, ◌+◌, ◌≤◌, length};
ghost use Rattle.arrayvec.specs.ArrayVec.{array_vec_len};
ghost use Rattle.text.specs.Lines.{decimal, spaced, newline, spoken_of, spoken_line, refused_line, bad_line, table_head, table_row};
ghost use Rattle.text.specs.Buffers.{Line};
ghost use Rattle.text.specs.declared.Spoken.{Spoken};

use arrayvec::ArrayVec;
use rules::Answer;

// The longest line of an answer, and the longest row of the table.
const MOST_ANSWER: usize = 50;

const MOST_ROW: usize = 84;

// A line is written by these three, and not by `write!`, which says what it wrote where it answers Ok, and never that it does: a line
// that fits has to be put. That there is room is what each requires.
fn put_text<const N: usize>(line: &mut ArrayVec<u8, N>, text: &[u8])
    requires { array_vec_len line.old + length text.now ≤ N }
    ensures { line.new.items ≡ line.old.items ++ text.now }
{
    line.try_extend_from_slice(text).unwrap();
}

// A number has at most 20 digits, which the kit's `decimal` puts into a lent array and counts.
fn put_number<const N: usize>(line: &mut ArrayVec<u8, N>, n: usize)
    requires { array_vec_len line.old + 20 ≤ N }
    ensures bytes { line.new.items ≡ line.old.items ++ decimal n }
    ensures short { array_vec_len line.new ≤ array_vec_len line.old + 20 }
{
    let mut digits = [0u8; 20];
    let count = io::decimal(n as u64, &mut digits);
    put_text(line, &digits[..count]);
}

// A space and a number.
fn put_spaced<const N: usize>(line: &mut ArrayVec<u8, N>, n: usize)
    requires { array_vec_len line.old + 21 ≤ N }
    ensures bytes { line.new.items ≡ line.old.items ++ spaced n }
    ensures short { array_vec_len line.new ≤ array_vec_len line.old + 21 }
{
    line.push(b' ');
    put_number(line, n);
}

// Puts a line at a place, and answers the place behind it; with too little room nothing changes and the place is the same.
#[tactic(auto, using(crate::proofs::Filling::line_over, crate::proofs::Filling::line_stays))]
fn append(out: &mut [u8], at: usize, line: &[u8]) -> usize
    ensures { Line line.now out.old at result out.new }
{
    if at > out.len() || line.len() > out.len() - at {
        return at;
    }
    let end = at + line.len();
    out[at..end].copy_from_slice(line);
    end
}

// A word, a space, a number and the line's end.
fn named_line(word: &[u8], n: usize, out: &mut [u8], at: usize) -> usize
    requires { length word.now + 22 ≤ MOST_ANSWER }
    ensures { Line (word.now ++ spaced n ++ newline) out.old at result out.new }
{
    let mut line: ArrayVec<u8, MOST_ANSWER> = ArrayVec::new();
    put_text(&mut line, word);
    put_spaced(&mut line, n);
    line.push(b'\n');
    append(out, at, line.as_slice())
}

// An answer as its line says it: a refusal by any number and place, be they of the list or not.
#[derive(Clone, Copy, Debug, PartialEq, Eq)]
pub enum Spoken {
    Running(usize),
    Idle,
    Missed(usize),
    Refused(usize, usize),
}

// What can be said on an answer's line.
pub trait Speaks {
    ghost says: { Self → Spoken };

    fn speak(self) -> Spoken
        ensures { result ≡ says self };
}

impl Speaks for Spoken {
    ghost says = { λ a. a };

    fn speak(self) -> Spoken {
        self
    }
}

impl Speaks for Answer {
    ghost says = { spoken_of };

    fn speak(self) -> Spoken {
        match self {
            Answer::Running(task) => Spoken::Running(task),
            Answer::Idle => Spoken::Idle,
            Answer::Missed(task) => Spoken::Missed(task),
            Answer::Refused(refusal) => Spoken::Refused(refusal.number(), refusal.place()),
        }
    }
}

// `running 2`, `idle`, `missed 1` or `refused 14 0`
#[tactic(auto, unfolding(crate::specs::Lines::spoken_line))]
pub fn answer_line<A: Speaks>(a: A, out: &mut [u8], at: usize) -> usize
    ensures { Line (spoken_line (A.says a)) out.old at result out.new }
{
    match a.speak() {
        Spoken::Running(task) => named_line(b"running", task, out, at),
        Spoken::Idle => append(out, at, b"idle\n"),
        Spoken::Missed(task) => named_line(b"missed", task, out, at),
        Spoken::Refused(number, place) => refusal_line(number, place, out, at),
    }
}

// `refused`, a number and a place, be they of the list or not.
pub fn refusal_line(number: usize, place: usize, out: &mut [u8], at: usize) -> usize
    ensures { Line (refused_line number place) out.old at result out.new }
{
    let mut line: ArrayVec<u8, MOST_ANSWER> = ArrayVec::new();
    put_text(&mut line, b"refused");
    put_spaced(&mut line, number);
    put_spaced(&mut line, place);
    line.push(b'\n');
    append(out, at, line.as_slice())
}

// `bad line`
pub fn bad_line(out: &mut [u8], at: usize) -> usize
    ensures { Line bad_line out.old at result out.new }
{
    append(out, at, b"bad line\n")
}

// `place task deadline criticality`
pub fn table_head(out: &mut [u8], at: usize) -> usize
    ensures { Line table_head out.old at result out.new }
{
    append(out, at, b"place task deadline criticality\n")
}

// `1 0 320 1`
pub fn table_row(
    place: usize,
    task: usize,
    deadline: usize,
    criticality: usize,
    out: &mut [u8],
    at: usize,
) -> usize
    ensures { Line (table_row place task deadline criticality) out.old at result out.new }
{
    let mut line: ArrayVec<u8, MOST_ROW> = ArrayVec::new();
    put_number(&mut line, place);
    put_spaced(&mut line, task);
    put_spaced(&mut line, deadline);
    put_spaced(&mut line, criticality);
    line.push(b'\n');
    append(out, at, line.as_slice())
}
