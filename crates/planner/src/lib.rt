// The planner: the order in which the tasks run, worked out from the two tables, or the first refusal that stands against them.
#![tactic(auto)]

ghost use Rattle.std.specs.Prelude.{◌≡◌};
ghost use Rattle.rules.specs.Plan.{PlanIs};
ghost use Rattle.planner.specs.Stages.{refused_plan, Clear, Checked, WorkedOut, Outcome};

use chains::Links;
use internal::Chained;
use places::Tables;
use rules::{Plan, Refusal};

mod chains;
mod internal;
mod multiple;
mod order;
mod places;

// Zeros throughout, with the refusal.
fn refused(refusal: Refusal) -> Plan
    ensures { result ≡ refused_plan refusal }
{
    Plan {
        verdict: Err(refusal),
        order: [0; 32],
        deadlines: [0; 32],
        criticalities: [0; 32],
        multiple: 0,
    }
}

// The plan of tables that are not refused, from the square of chains and the common multiple.
fn worked_out(chained: Chained, multiple: u32) -> Plan
    ensures { WorkedOut chained.entry.tasks.now chained.entry.chains.now multiple result }
{
    let columns = chained.columns();
    Plan {
        verdict: Ok(()),
        order: order::sort(&columns, chained.tasks.len() / 5),
        deadlines: columns.deadlines,
        criticalities: columns.criticalities,
        multiple,
    }
}

// Refusals 1 and 2, by the lengths.
fn check_lengths(tables: Tables) -> Result<(), Refusal>
    ensures { Checked tables.entry 3 result }
{
    let words = tables.tasks.len();
    if words % 5 != 0 || words == 0 || 160 < words {
        return Err(Refusal::TaskTable);
    }
    let words = tables.connections.len();
    if words % 3 != 0 || 192 < words {
        return Err(Refusal::ConnectionTable);
    }
    Ok(())
}

// Refusals 3 and 4, by each task and row.
fn check_values(tables: Tables) -> Result<(), Refusal>
    requires { Clear tables 3 }
    ensures { Checked tables.entry 5 result }
{
    if let Some(task) = tables.first_misfit() {
        return Err(Refusal::TaskValue(task));
    }
    if let Some(row) = tables.first_stray() {
        return Err(Refusal::ConnectionValue(row));
    }
    Ok(())
}

// Refusals 5 to 8, and the plan where none stands.
fn plan_chains(tables: Tables) -> Result<Plan, Refusal>
    requires { Clear tables 5 }
    ensures { Outcome tables.entry result }
{
    let count = tables.count();
    if let Some(row) = tables.first_uneven() {
        return Err(Refusal::Uneven(row));
    }
    let links = Links {
        connections: tables.connections,
    };
    let chains = links.square(count as u8);
    if let Some(task) = chains::first_circle(&chains, count) {
        return Err(Refusal::Circle(task));
    }
    if let Some(row) = tables.first_raised() {
        return Err(Refusal::Raised(row));
    }
    let multiple = multiple::multiple_of(tables.tasks).ok_or(Refusal::Multiple)?;
    let chained = Chained {
        tasks: tables.tasks,
        chains: &chains,
    };
    Ok(worked_out(chained, multiple))
}

// The plan, or the first refusal.
fn planned(tables: Tables) -> Result<Plan, Refusal>
    ensures { Outcome tables.entry result }
{
    check_lengths(tables)?;
    check_values(tables)?;
    plan_chains(tables)
}

// The plan of any two tables.
pub fn plan(tasks: &[u16], connections: &[u16]) -> Plan
    ensures { PlanIs tasks.now connections.now result }
{
    match planned(Tables { tasks, connections }) {
        Ok(plan) => plan,
        Err(refusal) => refused(refusal),
    }
}
