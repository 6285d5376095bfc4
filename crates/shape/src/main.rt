// The program: reads a book from standard input, searches it, and prints the answer and the model that was found.
#![tactic(auto)]

ghost use Rattle.std.specs.Prelude.{◌≤◌, ◌<◌, ℕ, List, length, take, IfOk, OnOk, IfSome};
ghost use Rattle.std.specs.Io.KnownBytes.{Appends, Consumes, IsAtEnd};
ghost use Rattle.print.specs.Prints.{Prints};

use std::io;
use std::io::{Read, Write};

// Reads until the input is full or the reader ends, and gives back how many bytes it put at the input's front. A reader may
// give fewer bytes than there is room for.
fn read_front<R: Read>(reader: &mut R, input: &mut [u8]) -> io::Result<usize>
    ensures within { IfOk result (λ n. n ≤ length input.new) }
    ensures bytes { IfOk result (λ n. Consumes (R.remaining reader.old) (R.remaining reader.new) (take n input.new)) }
    ensures end { IfOk result (λ n. n < length input.new → IsAtEnd (R.remaining reader.new)) }
{
    let mut count = 0;
    while count < input.len() {
        let more = reader.read(&mut input[count..])?;
        if more == 0 {
            return Ok(count);
        }
        count += more;
    }
    Ok(count)
}

// The whole program, over any reader and any writer: at `Ok` what was written is what is printed for the reader's first 207
// bytes, wherever the types tell the bytes that the reader has and the writer holds.
fn answer<R: Read, W: Write>(reader: &mut R, writer: &mut W) -> io::Result<()>
    ensures { OnOk result (IfSome (R.remaining reader.old) (λ s. (lines : List ℕ) × Prints (take 207 s) lines
        × Appends (W.contents writer.old) (W.contents writer.new) lines)) }
{
    // One byte more than the longest book, so that a longer input is seen to be one.
    let mut input = [0u8; 207];
    let count = read_front(reader, &mut input)?;
    let mut out = [0u8; 256];
    let size = print::put_printed(&input[..count], &mut out);
    writer.write_all(&out[..size])
}

fn main(rt: HostRuntime) -> io::Result<()> {
    answer(&mut rt.stdin(), &mut rt.stdout())
}
