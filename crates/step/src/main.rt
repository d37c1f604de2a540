// The step program (01, "Numbers from the bench"): reads the machine file that its argument names, then answers the calls on standard
// input, one a line.
#![tactic(auto)]

ghost use Rattle.io.specs.Counts.{IsPrefixLen};

use held::Held;
use rules::{Answer, State};
use serving::Desk;
use std::env::Env;
use std::fs;
use std::io::Write;

mod held;
mod opening;
mod serving;

// The first bytes of the file that the argument names, 643 of which decide it; none where it is not named, not opened or not read. The buffers are
// lent, each with how much of it was read or put, since memory is fixed.
fn load(rt: &HostRuntime, file: &mut [u8; 4096]) -> usize
    ensures { IsPrefixLen result file.new }
{
    let mut name = io::buffer();
    let Ok(length) = rt.arg(1, &mut name) else {
        return 0;
    };
    let Ok(path) = std::str::from_utf8(&name[..length]) else {
        return 0;
    };
    let Ok(mut opened) = fs::open(rt, path) else {
        return 0;
    };
    streams::read_full(&mut opened, file)
}

fn say(rt: &HostRuntime, answer: Answer) {
    let mut out = io::buffer();
    let n = text::answer_line(answer, &mut out, 0);
    let _ = rt.stdout().write_all(&out[..n]);
}

// One turn: a piece of the input, whose calls are answered before the next is read. The input's end, no byte, ends the last line. Whether there
// may be more.
fn turn(rt: &HostRuntime, desk: &mut Desk) -> std::io::Result<bool> {
    let mut bytes = [0u8; 1024];
    let mut out = [0u8; 51200];
    let n = streams::read_some(&mut rt.stdin(), &mut bytes);
    let end = if n == 0 {
        desk.finish(&mut out)
    } else {
        desk.serve(&bytes[..n], &mut out)
    };
    rt.stdout().write_all(&out[..end])?;
    Ok(n > 0)
}

// It goes on until the input has ended or a write has failed. Each turn but the last takes a byte at least, so no run has
// 2^64 - 1 of them: a count, since a loop has to be known to end.
fn run(rt: &HostRuntime, state: State) {
    let mut desk = Desk {
        state,
        line: Held::new(),
    };
    for _ in 0..u64::MAX {
        let Ok(true) = turn(rt, &mut desk) else {
            return;
        };
    }
}

fn main(rt: HostRuntime) {
    let mut file = io::buffer();
    let n = load(&rt, &mut file);
    let start = opening::opened(&file[..n]);
    let Answer::Idle = start.answer else {
        say(&rt, start.answer);
        return;
    };
    run(&rt, start.state);
}
