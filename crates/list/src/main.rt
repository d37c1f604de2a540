// The list program (01, "Numbers from the bench"): the order that a machine file on standard input gives, or its refusal.
#![tactic(auto)]

ghost use Rattle.std.specs.Prelude.{◌≡◌, ℕ, ◌+◌, ◌*◌, ◌≤◌, ◌<◌, length, get_or, take};
ghost use Rattle.io.specs.Counts.{IsPrefixLen};
ghost use Rattle.text.specs.Buffers.{Put};
ghost use Rattle.list.specs.Listing.{rows_of, Plans, ListIs};

use reader::Tables;
use rules::{Plan, Refusal};
use std::io::Write;

// The first n rows of the table, behind what stands before `at`.
fn rows(plan: &Plan, n: usize, out: &mut [u8], at: usize) -> usize
    requires n_bound { n ≤ 32 }
    requires by_index { (k : ℕ) → k < n → get_or plan.now.order k 0 < 32 }
    requires at_in_bounds { at + 84 * 32 ≤ length out.old }
    ensures { Put (84 * 32) out.old at (rows_of plan.now.order plan.now.deadlines plan.now.criticalities n) result out.new }
{
    let mut end = at;
    for k in 0..n {
        let task = usize::from(plan.order[k]);
        end = text::table_row(
            k + 1,
            task,
            plan.deadlines[task] as usize,
            usize::from(plan.criticalities[task]),
            out,
            end,
        );
    }
    end
}

// The plan of a file's tables, and how many tasks it has.
fn plan_of(file: &[u8]) -> Result<(Plan, usize), Refusal>
    ensures { Plans file.now result }
{
    let tables = Tables::of(file)?;
    let plan = planner::plan(tables.tasks(), tables.connections());
    plan.verdict?;
    Ok((plan, tables.tasks().len() / 5))
}

// What is printed for a file.
fn listing(file: &[u8], out: &mut [u8]) -> usize
    requires { 2720 ≤ length out.old }
    ensures list_is { ListIs file.now (take result out.new) }
    ensures prefix_len { IsPrefixLen result out.new }
{
    match plan_of(file) {
        Ok((plan, n)) => {
            let at = text::table_head(out, 0);
            rows(&plan, n, out, at)
        }
        Err(refusal) => text::refusal_line(refusal.number(), refusal.place(), out, 0),
    }
}

// The first 643 bytes decide any file. The buffers are lent, each with how much of it was read or put, since memory is fixed.
fn main(rt: HostRuntime) {
    let mut file = io::buffer();
    let n = streams::read_full(&mut rt.stdin(), &mut file);
    let mut out = io::buffer();
    let k = listing(&file[..n], &mut out);
    let _ = rt.stdout().write_all(&out[..k]);
}
