// The program: the examples of documents 01 and 02 and the worked examples of document 003, through the public calls, each
// beside the second judge. It prints a line for each: its place in the document, the bounds v n p, the formula, what the
// document states, whether the answer is that, and whether both judges agree on every candidate within the bounds.
#![tactic(auto)]

mod compare; // both judges on every candidate
mod report; // one example, one line
mod scope; // documents 01 and 02
mod thesis; // document 003

use report::Tally;
use std::io;

fn main(rt: HostRuntime) -> io::Result<()> {
    println!(rt;
        "0 nil, E 0=0, N !E, T (E + N); > points to, ~ list, # different; ! not, & and, + or, - and not, @ septraction"
    )?;
    let mut tally = Tally::default();
    scope::bytes_of_p1(&rt, &mut tally)?;
    for text in [
        scope::MODELS,
        scope::PATHS,
        thesis::CHAPTER_2,
        thesis::CHAPTER_3,
        thesis::CHAPTER_4,
        thesis::CHAPTER_7,
    ] {
        for line in text.lines() {
            tally.run(&rt, line)?;
        }
    }
    println!(rt; "{tally}")
}
