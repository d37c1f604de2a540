// The executive for C: the same five calls over plain words. include/otravelun.h has the layout of the words and of the number that
// each call answers.
#![tactic(auto)]

mod answers;
mod columns;
mod decoding;
mod encoding;
mod layout;

ghost use Rattle.std.specs.Fn.{FnOnceReturnsAtMut};
ghost use Rattle.rules.specs.Calls.{tick_of, complete_of};
ghost use Rattle.board.specs.Boundary.{ReadsTo, PlanTold, FreshTold, CallsTo, CallsBy, Keeps};

use answers::Coded;
use rules::{Answer, Refusal, State};

#[unsafe(no_mangle)]
pub extern "C" fn otravelun_read(file: &[u8], tasks: &mut [u16], connections: &mut [u16]) -> u64
    ensures { ReadsTo file.now tasks.old connections.old result tasks.new connections.new }
{
    reader::read(file, tasks, connections).code()
}

#[unsafe(no_mangle)]
pub extern "C" fn otravelun_plan(tasks: &[u16], connections: &[u16], plan: &mut [u32]) -> u64
    ensures { PlanTold tasks.now connections.now plan.old result plan.new }
{
    if plan.len() < layout::PLAN_WORDS {
        return Refusal::LittleRoom.code();
    }
    let planned = planner::plan(tasks, connections);
    encoding::put_plan(plan, &planned);
    planned.verdict.code()
}

#[unsafe(no_mangle)]
pub extern "C" fn otravelun_fresh(tasks: &[u16], connections: &[u16], state: &mut [u32]) -> u64
    ensures { FreshTold tasks.now connections.now state.old result state.new }
{
    let Some(words) = state.first_chunk_mut::<{ layout::STATE_WORDS }>() else {
        return Refusal::LittleRoom.code();
    };
    let start = executive::fresh(tasks, connections);
    encoding::put_state(words, &start.state);
    start.answer.code()
}

// A call on the state that the words encode: its answer, and unless it is refused its state in the words.
fn called<F: FnOnce(&mut State) -> Answer>(words: &mut [u32], call: F) -> u64
    requires callable { F.IsAlwaysCallable call }
    requires keeps { (s : State) (a : Answer) (z : State) → FnOnceReturnsAtMut F.FnOnce call s a z → Keeps s a z }
    ensures { CallsBy (FnOnceReturnsAtMut F.FnOnce call) words.old result words.new }
{
    let Some(mut state) = decoding::decode(words) else {
        return Refusal::OutOfRange.code();
    };
    let answer = call(&mut state);
    let told = answer.code();
    if let Answer::Refused(_) = answer {
        return told;
    }
    encoding::store(words, &state);
    told
}

#[unsafe(no_mangle)]
pub extern "C" fn otravelun_tick(state: &mut [u32]) -> u64
    ensures { CallsTo tick_of state.old result state.new }
{
    called(state, executive::tick)
}

#[unsafe(no_mangle)]
pub extern "C" fn otravelun_complete(state: &mut [u32], word: u32) -> u64
    ensures { CallsTo (λ s. complete_of s word) state.old result state.new }
{
    called(state, |state: &mut State| executive::complete(state, word))
}
