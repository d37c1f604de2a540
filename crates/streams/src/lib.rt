// Bytes from an open stream into a lent buffer.
#![tactic(auto)]

ghost use Rattle.std.specs.Prelude.{take};
ghost use Rattle.std.specs.Io.KnownBytes.{Consumes};
ghost use Rattle.io.specs.Counts.{IsPrefixLen};

use std::io::Read;

// Reads until the buffer is full, the input ends or a read fails, and answers how many bytes it put at the buffer's start: the
// stream's next ones, in order and with none lost. Not by std's `read_exact`, which says nothing of the bytes that it got where the
// input ends first.
pub fn read_full<R: Read>(from: &mut R, buf: &mut [u8]) -> usize
    ensures prefix_len { IsPrefixLen result buf.new }
    ensures bytes { Consumes (R.remaining from.old) (R.remaining from.new) (take result buf.new) }
{
    let mut done = 0;
    while done < buf.len() {
        let n = read_some(from, &mut buf[done..]);
        if n == 0 {
            break;
        }
        done += n;
    }
    done
}

// One read: how many of the stream's next bytes it put at the buffer's start, none at the input's end or where it failed.
pub fn read_some<R: Read>(from: &mut R, buf: &mut [u8]) -> usize
    ensures prefix_len { IsPrefixLen result buf.new }
    ensures bytes { Consumes (R.remaining from.old) (R.remaining from.new) (take result buf.new) }
{
    from.read(buf).unwrap_or(0)
}
