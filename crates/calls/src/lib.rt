// The line decoder of the step program (01, "Numbers from the bench"): what one line asks for.
#![tactic(auto)]

ghost use Rattle.std.specs.Prelude.{◌≡◌};
ghost use Rattle.calls.specs.Line.{call_of, word_of};

#[derive(Clone, Copy, Debug, PartialEq, Eq)]
pub enum Call {
    Tick,
    Complete(u32),
}

// A line that is none of the calls.
#[derive(Clone, Copy, Debug, PartialEq, Eq)]
pub struct BadLine;

// One to ten digits, at most 4,294,967,295. Digit by digit, since `str::parse` takes a sign as well.
fn word(digits: &[u8]) -> Result<u32, BadLine>
    ensures { result ≡ word_of digits.now }
{
    if digits.is_empty() || digits.len() > 10 {
        return Err(BadLine);
    }
    let mut number: u64 = 0;
    for &digit in digits {
        if !digit.is_ascii_digit() {
            return Err(BadLine);
        }
        number = number * 10 + u64::from(digit - b'0');
    }
    u32::try_from(number).map_err(|_| BadLine)
}

// `t`, or `c`, a space and a word; the line's end is not part of it. A public function by this name, which its statement cites: a
// `TryFrom` beside it would be a second way to ask the same.
#[tactic(auto, using(crate::proofs::Decode::call_none, crate::proofs::Decode::call_letter, crate::proofs::Decode::call_longer))]
pub fn call_of(line: &[u8]) -> Result<Call, BadLine>
    ensures { result ≡ call_of line.now }
{
    match line {
        [b't'] => Ok(Call::Tick),
        [b'c', b' ', digits @ ..] => Ok(Call::Complete(word(digits)?)),
        _ => Err(BadLine),
    }
}
