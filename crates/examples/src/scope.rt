// Document 01's examples: P1's bytes, and those that document 01 wants proved once more, beside the second judge; and those of
// document 02's path bound.
use crate::report::Tally;
use logic::Profile;
use std::io;

const P1_BOOK: [u8; 17] = [2, 1, 11, 0, 3, 0, 2, 14, 0, 3, 0, 1, 1, 1, 3, 1, 1];

const P1_ENCODING: [u8; 64] = [
    2, 1, 11, 0, 3, 0, 3, 14, 0, 50, 0, 1, 1, 1, 4, 0, 0, 0, 1, 0, 0, 0, 0, 0, 5, 0, 0, 0, 1, 0, 1,
    0, 0, 0, 7, 0, 0, 0, 1, 0, 0, 0, 0, 0, 13, 1, 0, 0, 0, 0, 0, 0, 0, 0, 7, 0, 2, 0, 3, 0, 0, 0,
    0, 0,
];

pub fn bytes_of_p1(rt: &impl Print, tally: &mut Tally) -> io::Result<()> {
    let book = notation::book(&[1, 1, 1], b"x>x");
    tally.compare(rt, "01 P1, the book", book.as_slice(), &P1_BOOK)?;
    let mut rows = [0u8; 64];
    encoder::encode(Profile::Strong, &P1_BOOK, &mut rows);
    tally.compare(rt, "01 P1, the encoding", &rows, &P1_ENCODING)?;
    let mut page = [0u8; 256];
    let size = print::put_printed(&P1_BOOK, &mut page);
    tally.compare(
        rt,
        "01 P1, the text of shape",
        &page[..size],
        b"answer 0 place 0 tried 6\nstack 1\nheap 1\n",
    )
}

pub const MODELS: &str = "\
01 P1 | 1 1 1 | x>x | fits 1;1 | 1 1 1
01 P1 | 1 1 1 | x>x | found
01 P3 | 1 1 1 | x>0 | found
01 P4 | 1 1 1 | x~0 | found
01 P5 | 1 0 0 | x#0 | none
01 P6 | 1 1 1 | 0>x | none
01 P7 | 2 3 3 | (N * N) | not 12;33-
01 P8 | 3 3 3 | (N * N) | fits 123;33-
01 P9 | 2 2 2 | (x>0 * y>0) | fits 12;00
01 P10 | 1 1 1 | (x>x * (x>0 @ x>0)) | fits 1;1
01 P11 | 1 2 1 | x~0 | not 1;20
01 P11 | 1 2 2 | x~0 | fits 1;20
01 P12 | 1 1 1 | x~x | not 1;1
01 P13 | 0 0 0 | (E & !(N @ N)) | found
01 P13 | 0 1 0 | (E & !(N @ N)) | none
01 P14 | 2 2 2 | x>y | fits 12;2-
01 P14 | 2 2 2 | y>x | not 12;2-
";

// Document 02's path bound: on the model, and not on lists, added heaps or wholes.
pub const PATHS: &str = "\
02 4, a list of two links | 1 2 1 | !x~0 | not 1;20
02 4, a list of two links | 1 2 2 | !x~0 | not 1;20
02 4, even where all is true | 1 2 1 | (x=x + !x=x) | not 1;20
02 4, a link to a free location | 1 2 0 | (x>x + !x>x) | not 1;2-
02 4, a cell that points to itself | 1 1 0 | x>x | fits 1;1
02 4, a cycle of two cells | 2 2 1 | (x>y * y>x) | fits 12;21
02 4, a cycle of two cells | 2 2 0 | (x>y * y>x) | not 12;21
02 4, a cycle of three cells | 3 3 2 | ((x>y * y>z) * z>x) | fits 123;231
02 4, a cycle of three cells | 3 3 1 | ((x>y * y>z) * z>x) | none
02 4, not from location 1 | 2 3 1 | (x~0 * y=y) | not 32;-02
02 4, the added heap | 1 1 0 | (x>0 @ x>0) | fits 1;-
02 4, the whole | 2 2 1 | (x>y @ x~0) | fits 12;-0 | 12 00 20 2 1 3
02 4, three links | 3 3 2 | (x>y * (y>z * z>0)) | none
02 4, three links | 3 3 3 | (x>y * (y>z * z>0)) | found
";
