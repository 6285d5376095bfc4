// The boundary for C and Rust: each public call of the bench, with the full contract of the call it wraps. A slice arrives as a pointer and a length.
#![tactic(auto)]

ghost use Rattle.grammar.specs.Import.{Imports};
ghost use Rattle.logic.specs.declared.Profile.TheVariants.{Strong, Ordinary};
ghost use Rattle.logic.specs.Book.{Reads, Placed};
ghost use Rattle.logic.specs.Model.{Judges};
ghost use Rattle.logic.specs.Search.{Searches};
ghost use Rattle.rows.specs.Assigned.{Assigns};
ghost use Rattle.rows.specs.Output.{Encodes};
ghost use Rattle.writing.specs.Writing.{Exports};

use contents::Stretch;
use logic::{Answer, Profile};

#[unsafe(no_mangle)]
pub extern "C" fn hollyspool_read(book: &[u8]) -> Answer
    ensures { Reads book.now result }
{
    book::read(book)
}

#[unsafe(no_mangle)]
pub extern "C" fn hollyspool_body(book: &[u8], entry: u64) -> Stretch
    ensures { Placed book.now entry result.start result.length }
{
    contents::placed(book, entry)
}

#[unsafe(no_mangle)]
pub extern "C" fn hollyspool_judge(book: &[u8], model: &[u8]) -> Answer
    ensures { Judges Strong book.now model.now result }
{
    model::judge(Profile::Strong, book, model)
}

#[unsafe(no_mangle)]
pub extern "C" fn hollyspool_judge_ordinary(book: &[u8], model: &[u8]) -> Answer
    ensures { Judges Ordinary book.now model.now result }
{
    model::judge(Profile::Ordinary, book, model)
}

#[unsafe(no_mangle)]
pub extern "C" fn hollyspool_search(book: &[u8], budget: u64, out: &mut [u8]) -> Answer
    ensures { Searches Strong book.now budget out.old result out.new }
{
    search::search(Profile::Strong, book, budget, out)
}

#[unsafe(no_mangle)]
pub extern "C" fn hollyspool_search_ordinary(book: &[u8], budget: u64, out: &mut [u8]) -> Answer
    ensures { Searches Ordinary book.now budget out.old result out.new }
{
    search::search(Profile::Ordinary, book, budget, out)
}

#[unsafe(no_mangle)]
pub extern "C" fn hollyspool_encode(book: &[u8], out: &mut [u8]) -> Answer
    ensures { Encodes Strong book.now out.old result out.new }
{
    encoder::encode(Profile::Strong, book, out)
}

#[unsafe(no_mangle)]
pub extern "C" fn hollyspool_encode_ordinary(book: &[u8], out: &mut [u8]) -> Answer
    ensures { Encodes Ordinary book.now out.old result out.new }
{
    encoder::encode(Profile::Ordinary, book, out)
}

#[unsafe(no_mangle)]
pub extern "C" fn hollyspool_assign(book: &[u8], assignment: &[u8]) -> Answer
    ensures { Assigns Strong book.now assignment.now result }
{
    assign::assign(Profile::Strong, book, assignment)
}

#[unsafe(no_mangle)]
pub extern "C" fn hollyspool_assign_ordinary(book: &[u8], assignment: &[u8]) -> Answer
    ensures { Assigns Ordinary book.now assignment.now result }
{
    assign::assign(Profile::Ordinary, book, assignment)
}

#[unsafe(no_mangle)]
pub extern "C" fn hollyspool_import(text: &[u8], n: u64, p: u64, out: &mut [u8]) -> Answer
    ensures { Imports text.now n p out.old result out.new }
{
    import::import(text, n, p, out)
}

#[unsafe(no_mangle)]
pub extern "C" fn hollyspool_export(book: &[u8], out: &mut [u8]) -> Answer
    ensures { Exports book.now out.old result out.new }
{
    writer::export(book, out)
}
