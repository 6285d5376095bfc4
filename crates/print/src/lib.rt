// What the program prints for a book, as bytes.
#![tactic(auto)]

ghost use Rattle.print.specs.Prints.{PutsPrinted};

use book::open;
use lines::put_lines;
use logic::{MODEL, Profile};
use search::search;

// Searches the book, writes what is printed for it to the front of the output, and gives back its length. Everything printed fits
// into 256 bytes, so a caller has nothing to show.
pub fn put_printed(book: &[u8], out: &mut [u8; 256]) -> usize
    ensures { PutsPrinted book.now out.old result out.new }
{
    let mut model = [0u8; MODEL];
    let answer = search(Profile::Strong, book, 1000000, &mut model);
    match open(book) {
        Ok(problem) => put_lines(answer, &model, problem.v as usize, problem.n as usize, out),
        Err(_) => put_lines(answer, &model, 0, 0, out),
    }
}
