// The reader of the machine file (01, "The two tables and the machine file"): the file's records go into the two tables in file
// order, and no value is judged.
#![tactic(auto)]

ghost use Rattle.std.specs.Prelude.{◌≡◌, ◌+◌, ◌*◌, ◌≤◌, ◌<◌, length, drop};
ghost use Rattle.rules.specs.File.{task_row, connection_row, marked, item_at};
ghost use Rattle.rules.specs.Rows.{task_words_of, connection_words_of};
ghost use Rattle.reader.specs.Items.{item_is};
ghost use Rattle.reader.specs.Read.{stored, PassIs, ReadIs};

use rules::{ConnectionRow, Counts, Refusal, TaskRow};

// How many words of tasks and of connections a file can have, and so the room that both tables need.
const MOST_TASK_WORDS: usize = 160;

const MOST_ROW_WORDS: usize = 192;

mod tables;

pub use tables::Tables;

// What stands at one place of the file: a record, or the file's end.
#[derive(Clone, Copy, Debug, PartialEq, Eq)]
enum Item {
    Task(TaskRow),
    Connection(ConnectionRow),
    End,
}

// A place in the file: the byte, and what was read before it.
#[derive(Clone, Copy, Debug, PartialEq, Eq)]
struct Place {
    byte: usize,
    read: Counts,
}

// Two bytes as a number.
fn word(low: u8, high: u8) -> u16
    ensures { result ≡ low + high * 256 }
{
    u16::from_le_bytes([low, high])
}

// Period, deadline and compute, low byte first; criticality; flag.
#[tactic(auto, unfolding(rules::specs::File::task_row))]
fn task_row(body: &[u8]) -> TaskRow
    requires { 8 ≤ length body.now }
    ensures { task_words_of result ≡ task_row body.now }
{
    TaskRow {
        period: word(body[0], body[1]),
        deadline: word(body[2], body[3]),
        compute: word(body[4], body[5]),
        criticality: u16::from(body[6]),
        flag: u16::from(body[7]),
    }
}

// Sender, receiver, kind.
#[tactic(auto, unfolding(rules::specs::File::connection_row))]
fn connection_row(body: &[u8]) -> ConnectionRow
    requires { 3 ≤ length body.now }
    ensures { connection_words_of result ≡ connection_row body.now }
{
    ConnectionRow {
        sender: u16::from(body[0]),
        receiver: u16::from(body[1]),
        kind: u16::from(body[2]),
    }
}

// The mark decides the record, matched as a number; the body is the part of the file after the mark. Both are 01's forms.
#[tactic(auto, unfolding(rules::specs::File::marked))]
fn record_at(mark: u16, body: &[u8], at: Place) -> Result<Item, Refusal>
    requires { at.byte < 9223372036854775808 }
    ensures { item_is result ≡ marked mark at.byte at.read.tasks at.read.connections body.now }
{
    match mark {
        0x544B => {
            if at.read.tasks >= 32 {
                return Err(Refusal::TooMany(at.byte));
            }
            if body.len() < 8 {
                return Err(Refusal::CutShort(at.byte));
            }
            Ok(Item::Task(task_row(body)))
        }
        0x434E => {
            if at.read.connections >= 64 {
                return Err(Refusal::TooMany(at.byte));
            }
            if body.len() < 3 {
                return Err(Refusal::CutShort(at.byte));
            }
            Ok(Item::Connection(connection_row(body)))
        }
        0x454E => {
            if body.len() > 0 {
                return Err(Refusal::EndWanted(at.byte + 2));
            }
            Ok(Item::End)
        }
        _ => Err(Refusal::UnknownMark(at.byte)),
    }
}

fn item_at(file: &[u8], at: Place) -> Result<Item, Refusal>
    ensures { item_is result ≡ item_at at.byte at.read.tasks at.read.connections (drop at.byte file.now) }
{
    let byte = at.byte;
    if file.len() <= byte {
        return Err(Refusal::EndWanted(byte));
    }
    if file.len() - byte == 1 {
        return Err(Refusal::CutShort(byte));
    }
    let mark = word(file[byte + 1], file[byte]);
    record_at(mark, &file[byte + 2..], at)
}

// A row of words into a table, where `store` says so.
fn put_row(table: &mut [u16], at: usize, words: &[u16], store: bool)
    requires { at + length words.now ≤ length table.old }
    ensures { table.new ≡ stored store table.old at words.now }
{
    if store {
        table[at..at + words.len()].copy_from_slice(words);
    }
}

// One pass over the records: the answer, and where `store` says so the rows in the tables. One function for both passes, so that the first gives
// the answer of the second by its own clause. It goes from record to record, each as long as its mark says.
fn pass(
    file: &[u8],
    tasks: &mut [u16],
    connections: &mut [u16],
    store: bool,
) -> Result<Counts, Refusal>
    requires { (160 ≤ length tasks.old) × (192 ≤ length connections.old) }
    ensures { PassIs store file.now tasks.old connections.old result tasks.new connections.new }
{
    let mut at = Place {
        byte: 0,
        read: Counts {
            tasks: 0,
            connections: 0,
        },
    };
    loop {
        match item_at(file, at)? {
            Item::Task(row) => {
                put_row(tasks, at.read.tasks * 5, &row.words(), store);
                at.byte += 10;
                at.read.tasks += 1;
            }
            Item::Connection(row) => {
                put_row(connections, at.read.connections * 3, &row.words(), store);
                at.byte += 5;
                at.read.connections += 1;
            }
            Item::End => return Ok(at.read),
        }
    }
}

// How many tasks and connections the file has, with their rows at the front of the tables; or the first refusal, with the
// tables as they were. A refused file may change no table, so the first pass only looks.
pub fn read(file: &[u8], tasks: &mut [u16], connections: &mut [u16]) -> Result<Counts, Refusal>
    ensures { ReadIs file.now tasks.old connections.old result tasks.new connections.new }
{
    if tasks.len() < MOST_TASK_WORDS || connections.len() < MOST_ROW_WORDS {
        return Err(Refusal::LittleRoom);
    }
    pass(file, tasks, connections, false)?;
    pass(file, tasks, connections, true)
}
