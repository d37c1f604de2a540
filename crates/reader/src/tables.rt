// A machine file's own tables, for a program that lends the reader none.
ghost use Rattle.std.specs.Prelude.{◌≡◌};
ghost use Rattle.reader.specs.Tables.{Words, TablesAre};

use crate::read;
use rules::{Counts, Refusal};
use std::marker::Model;

// Both tables at their full size, and how many tasks and connections stand at their fronts. A caller sees the words of these alone.
#[derive(Drop)]
pub struct Tables {
    tasks: [u16; 160],
    connections: [u16; 192],
    filled: Counts,
}

impl Model for Tables {
    ghost use Rattle.std.specs.Prelude.{◌*◌, ◌≤◌, take};
    ghost use Rattle.rules.specs.Sizes.{most_tasks, most_rows, task_width, row_width};
    ghost use Rattle.reader.specs.Tables.{Words};

    ghost Value = { Words };

    ghost view = { λ t. record { tasks = take (t.filled.tasks * task_width) t.tasks; connections = take (t.filled.connections * row_width) t.connections } };

    ghost invariant = { λ t. (t.filled.tasks ≤ most_tasks) × (t.filled.connections ≤ most_rows) };
}

impl Tables {
    pub fn of(file: &[u8]) -> Result<Tables, Refusal>
        ensures { TablesAre file.now result }
    {
        let mut tasks = [0u16; 160];
        let mut connections = [0u16; 192];
        let filled = read(file, &mut tasks, &mut connections)?;
        Ok(Tables {
            tasks,
            connections,
            filled,
        })
    }

    pub fn tasks(&self) -> &[u16]
        ensures { result.now ≡ self.now.tasks }
    {
        &self.tasks[..self.filled.tasks * 5]
    }

    pub fn connections(&self) -> &[u16]
        ensures { result.now ≡ self.now.connections }
    {
        &self.connections[..self.filled.connections * 3]
    }
}
