// The import of a text: the book of the formula that it means, at the front of the output.
#![tactic(auto)]

ghost use Rattle.std.specs.Prelude.{◌≡◌, ◌+◌, ◌*◌, ◌≤◌, length};
ghost use Rattle.leaves.specs.Refusals.{outcome};
ghost use Rattle.grammar.specs.Import.{Imports};
ghost use Rattle.items.specs.Readings.{Fine};
ghost use Rattle.import.specs.Wholes.{WholeIs, written};

use draft::Nodes;
use head::{HEAD, put_head};
use items::Draft;
use leaves::{Refusal, done};
use logic::{Answer, MOST, TABLE};
use names::Names;
use words::skip;

// The whole text: one item, and blanks behind it.
fn whole(s: &[u8]) -> Result<Draft, Refusal>
    ensures { WholeIs s.now result }
{
    let nodes = Nodes {
        table: [0; TABLE],
        count: 0,
    };
    let names = Names {
        letters: [0; MOST],
        count: 0,
    };
    let mut draft = Draft { nodes, names };
    let body = draft.item(s, 0, 0)?;
    let end = skip(s, body);
    if end < s.len() {
        return Err(Refusal::BadText(end));
    }
    Ok(draft)
}

// Writes the book of what was read.
fn put_book(out: &mut [u8], draft: &Draft, n: u8, p: u8)
    requires { Fine draft.now × (14 + 3 * draft.now.nodes.count ≤ length out.old) }
    ensures { out.new ≡ written draft.now n p out.old }
{
    let size = 3 * draft.nodes.count;
    put_head(out, 2, draft.names.count as u8, n, p, size as u16);
    out[HEAD..HEAD + size].copy_from_slice(&draft.nodes.table[..size]);
}

// The book written, or the refusal of the text, and then nothing changes.
fn text_to_book(text: &[u8], n: u64, p: u64, out: &mut [u8]) -> Result<(), Refusal>
    ensures { Imports text.now n p out.old (outcome result) out.new }
{
    if (MOST as u64) < n || (MOST as u64) < p {
        return Err(Refusal::Bounds);
    }
    let draft = whole(text)?;
    if out.len() < HEAD + 3 * draft.nodes.count {
        return Err(Refusal::OutputLength);
    }
    put_book(out, &draft, n as u8, p as u8);
    Ok(())
}

// Number 0 with the book written, or the refusal of the text, and then nothing changes.
pub fn import(text: &[u8], n: u64, p: u64, out: &mut [u8]) -> Answer
    ensures { Imports text.now n p out.old result out.new }
{
    done(text_to_book(text, n, p, out))
}
