// The proved functions under the bench, with the machine, the calls and the sum of bench/drive.h. Standard input has a letter, a digit
// and a machine file: t for ticks of the machine, p for plans of its tables, r for reads of its file, ten to the power of the digit times.
#![tactic(auto)]

use reader::Tables;
use rules::{Answer, Counts, Plan};

fn mixed(sum: u32, x: u32) -> u32 {
    (sum % 1000003) * 31 + x % 1000
}

// By `let .. else`: "programs and the desk run take the answer apart" so.
fn code_of(answer: Answer) -> u32 {
    let Answer::Running(task) = answer else {
        let Answer::Missed(task) = answer else {
            let Answer::Refused(refusal) = answer else {
                return 200; // Idle
            };
            return 400 + (refusal.number() as u32);
        };
        return 300 + ((task % 256) as u32);
    };
    100 + ((task % 256) as u32)
}

// The sum of so many rounds of work, each of which is told the sum so far, so that none can be moved out of the loop.
fn repeated<F: FnMut(u32) -> u32>(times: u32, mut work: F) -> u32
    requires { F.IsAlwaysCallable work }
{
    let mut sum = 0;
    for _ in 0..times {
        sum = mixed(sum, work(sum));
    }
    sum
}

// A tick, and then up to two completions: jobs end in the tick that they run in, or in the next one.
fn run_ticks(tables: &Tables, times: u32) -> u32 {
    let mut state = executive::fresh(tables.tasks(), tables.connections()).state;
    let mut sum = 0;
    for _ in 0..times {
        let mut answer = executive::tick(&mut state);
        sum = mixed(sum, code_of(answer));
        for _ in 0..2 {
            let Answer::Running(_) = answer else {
                break;
            };
            answer = executive::complete(&mut state, sum);
            sum = mixed(sum, code_of(answer));
        }
    }
    for input in &state.inputs {
        sum = mixed(sum, *input);
    }
    sum
}

fn total(a: u32, b: u32, c: u32, d: u32) -> u32 {
    a % 1000 + b % 1000 + c % 1000 + d % 1000
}

fn plan_code(plan: &Plan) -> u32 {
    total(
        plan.multiple,
        plan.deadlines[0],
        u32::from(plan.criticalities[1]),
        u32::from(plan.order[31]),
    )
}

// The first task's criticality changes with the sum.
fn run_plans(tasks: &mut [u16], connections: &[u16], times: u32) -> u32 {
    repeated(times, |sum| {
        if let Some(criticality) = tasks.get_mut(3) {
            *criticality = (sum % 2) as u16;
        }
        plan_code(&planner::plan(tasks, connections))
    })
}

fn counts_code(counts: Counts) -> u32 {
    (counts.tasks % 1000) as u32 + (counts.connections % 1000) as u32
}

// The first task's criticality changes with the sum. Tables of its own, since `read` itself is measured.
fn run_reads(file: &mut [u8], times: u32) -> u32 {
    let mut tasks = [0; 160];
    let mut connections = [0; 192];
    repeated(times, |sum| {
        if let Some(criticality) = file.get_mut(8) {
            *criticality = (sum % 2) as u8;
        }
        let read = reader::read(file, &mut tasks, &mut connections).map_or(0, counts_code);
        total(read, u32::from(tasks[3]), u32::from(connections[190]), 0)
    })
}

fn times_of(digit: u8) -> u32 {
    match digit {
        b'1'..=b'7' => 10_u32.pow(u32::from(digit - b'0')),
        _ => 1,
    }
}

// The letter is what the bench's programs in C are given too.
fn run(what: u8, times: u32, file: &mut [u8]) -> u32 {
    let Ok(tables) = Tables::of(file) else {
        return 0;
    };
    match what {
        b't' => run_ticks(&tables, times),
        b'p' => {
            // A copy, which the plans change.
            let mut tasks = [0; 160];
            let words = tables.tasks().len();
            tasks[..words].copy_from_slice(tables.tasks());
            run_plans(&mut tasks[..words], tables.connections(), times)
        }
        b'r' => run_reads(file, times),
        _ => 0,
    }
}

fn main(rt: HostRuntime) -> std::io::Result<()> {
    let mut input = [0; 1024];
    let got = streams::read_full(&mut rt.stdin(), &mut input);
    if got < 2 {
        return Ok(());
    }
    let times = times_of(input[1]);
    let sum = run(input[0], times, &mut input[2..got]);
    println!(rt; "{sum}")
}
