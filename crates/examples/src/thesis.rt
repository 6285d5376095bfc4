// Document 003's worked examples, chapter by chapter, each with its place there. Its variables are named x y z u v here, and the
// path bound is n, so that no path within the bounds is too long.
//
// The pictures of the figures are not in the copy that was read: a figure's model here is one that its caption and the text
// describe, made as small as they allow. Two lines go against what 003 says, and name the definition that decides instead. The
// search refuses a variable that no atom names; in the two lines of 3.3 that are about all models, y=y and z=z name them, which
// hold on the empty heap and change no model.

// In Example 2.5 the formula is to say that x is allocated. Where x is nil it holds on every heap, since no added heap fits
// x>0 there; the line against it says so.
pub const CHAPTER_2: &str = "\
003 Figure 2.1 | 5 6 6 | ((x~y * u~v) * z>y) | fits 14456;23446-
003 Example 2.2, phi 1 | 3 3 3 | (x>y * x>z) | none
003 Example 2.2, phi 2 | 3 3 3 | (x>y * z>y) | found
003 Example 2.2, x and z differ | 3 3 3 | ((x>y * z>y) * x=z) | none
003 Example 2.3, phi 3 | 2 2 2 | x>y | not 12;20
003 Example 2.3, phi 4 | 2 2 2 | (x>y * T) | fits 12;20
003 Example 2.4, phi 5 | 3 2 2 | (x>y & y>z) | fits 111;1-
003 Example 2.4, only unified | 3 3 3 | ((x>y & y>z) * x#y) | none
003 Example 2.4, only unified | 3 3 3 | ((x>y & y>z) * y#z) | none
003 Example 2.5, x allocated | 1 2 2 | !(x>0 @ T) | fits 1;1-
003 Example 2.5, x not allocated | 1 2 2 | !(x>0 @ T) | not 1;-1
003 Figure 3.2, against Example 2.5: x at nil | 1 2 2 | !(x>0 @ T) | fits 0;--
003 2.3.3, the empty list | 2 2 2 | x~y | fits 11;--
003 2.3.3, no cyclic list | 2 2 2 | x~y | not 11;1-
003 Example 2.6 | 3 2 2 | ((x>y * y>z) & !x~z) | fits 121;21
";

pub const CHAPTER_3: &str = "\
003 Example 3.1, unsatisfiable | 2 3 3 | (x>y & x=y) | none
003 Example 3.1, self-loop | 2 2 2 | (x>y * x=y) | fits 11;1-
003 Example 3.2, a full heap | 2 2 2 | !x=y | fits 11;1-
003 Example 3.2, a full heap | 2 2 2 | x#y | not 11;1-
003 Example 3.3, x not allocated | 1 2 2 | (x>0 @ T) | fits 1;-1
003 Example 3.3, x allocated | 1 2 2 | (x>0 @ T) | not 1;1-
003 Example 3.3, by the wand | 1 3 3 | ((x>0 @ T) - (T - !(x>0 @ T))) | none
003 Example 3.3, by the wand | 1 3 3 | ((T - !(x>0 @ T)) - (x>0 @ T)) | none
003 3.2, list of length at least 1 | 2 2 2 | (x~y * x#y) | not 11;--
003 3.2, list of length at least 1 | 2 2 2 | (x~y * x#y) | fits 12;2-
003 3.2, list of length at least 2 | 2 3 3 | ((x~y * x#y) - x>y) | not 12;2--
003 3.2, list of length at least 2 | 2 3 3 | ((x~y * x#y) - x>y) | fits 12;3-2
003 Figure 3.3, left | 2 3 3 | ((x~0 * T) & (y~0 * T)) | not 12;330
003 Figure 3.3, right | 3 3 3 | ((x~0 * T) & (y~0 * T)) | fits 123;330
003 Lemma 3.1, 2 and 3 swapped | 1 3 3 | x~0 | fits 1;230
003 Lemma 3.1, 2 and 3 swapped | 1 3 3 | x~0 | fits 1;302
003 3.3, too few variables to split | 2 3 3 | ((x~0 & ((N * N) * N)) * y=y) | none
003 3.3, enough variables to split | 3 3 3 | ((x~0 & ((N * N) * N)) * (y=y * z=z)) | found
003 Figure 3.5, an unnamed location | 1 3 3 | (x~0 & ((N * N) * N)) | not 1;230
003 Figure 3.5, location 4 unnamed | 3 5 5 | (x~z & ((N * N) * N)) | not 125;2345-
003 Figure 3.5, location 4 named | 4 5 5 | (x~z & ((N * N) * N)) | fits 1254;2345-
003 Example 3.4, a pointer to itself | 1 2 2 | x>x | fits 1;1-
003 Example 3.4, overlaid lists | 2 3 3 | (N * N) | not 12;33-
003 Example 3.4, a cycle | 1 2 2 | ((x~x + x~0) + (N * N)) | not 1;21
003 Example 3.4, an anonymous sink | 1 2 2 | ((x>x + x>0) + (x~x + x~0)) | not 1;2-
003 Example 3.6, a list of three links | 1 3 3 | ((x~0 * x#0) - x>0) | fits 1;230
003 Example 3.6, its reduction | 1 3 3 | ((x~0 * x#0) - x>0) | fits 1;20-
003 Example 3.7, too few locations | 2 3 3 | (((x~y * x#y) - x>y) * ((y~x * y#x) - y>x)) | none
003 Example 3.7, four locations | 2 4 4 | (((x~y * x#y) - x>y) * ((y~x * y#x) - y>x)) | found
003 Example 3.8, n = 2 | 0 1 1 | (N * N) | none
003 Example 3.8, n = 2 | 0 2 2 | (N * N) | found
003 Example 3.8, n = 3 | 0 2 2 | ((N * N) * N) | none
003 Example 3.8, n = 3 | 0 3 3 | ((N * N) * N) | fits 123
003 Example 3.8, n = 4 | 0 3 3 | (((N * N) * N) * N) | none
003 Example 3.8, n = 4 | 0 4 4 | (((N * N) * N) * N) | fits 1234
";

pub const CHAPTER_4: &str = "\
003 Figure 4.2, the model | 3 3 3 | (x~z * (x~y + z>y)) | fits 132;23-
003 Figure 4.2, one footprint | 3 3 3 | (x~y + z>y) | fits 132;23-
003 Figure 4.2, the other footprint | 3 3 3 | (x~y + z>y) | fits 132;-3-
003 4.3, the image of a set | 3 3 3 | (N * N) | fits 123;33- | 123 330 3 1 2
003 4.4, at the empty heap | 1 2 2 | (x>0 @ x>0) | fits 1;--
003 4.4, at the empty heap only | 1 3 3 | ((x>0 @ x>0) & N) | none
003 4.4, the self-pointer | 1 2 2 | (x>x * (x>0 @ x>0)) | fits 1;1-
003 4.4, x is not nil | 1 3 3 | ((x>x * (x>0 @ x>0)) * x=0) | none
003 Figure 4.3, the difference | 3 3 3 | (x>y @ x~z) | fits 123;-3-
003 Figure 4.3, the witness heap | 3 3 3 | (x>y @ x~z) | not 123;23-
003 Example 4.1 | 3 2 2 | ((x>y * y>z) - x~z) | found
003 Example 4.1, the model | 3 2 2 | ((x>y * y>z) - x~z) | fits 121;21
003 Example 4.1, the first-order model | 3 2 2 | ((x>y * y>z) - x~z) | fits 121;21 | 121 21 3 1 2
";

// In 7.3.1 the formula not_alloc is to say that no variable is allocated. With two variables it does not, by Figure 3.2: x may
// be allocated in the part that the formula for y gets. So that model is stated to fit.
pub const CHAPTER_7: &str = "\
003 7.1, an entailment | 2 3 3 | (x~y - x~y) | none
003 7.3.1, size at least 2 | 0 3 3 | (N * N) | fits ;12-
003 7.3.1, size at least 2 | 0 3 3 | (N * N) | not ;1--
003 7.3.1, size exactly 1 | 0 2 2 | (N & !(N * N)) | fits ;1-
003 7.3.1, size exactly 1 | 0 2 2 | (N & !(N * N)) | not ;12
003 7.3.1, size exactly 2 | 0 3 3 | ((N * N) & !((N * N) * N)) | fits ;12-
003 7.3.1, size exactly 2 | 0 3 3 | ((N * N) & !((N * N) * N)) | not ;123
003 7.3.1, not_alloc at the empty heap | 2 2 2 | ((x>0 @ T) * (y>0 @ T)) | fits 12;--
003 Figure 3.2, against 7.3.1: not_alloc with x allocated | 2 2 2 | ((x>0 @ T) * (y>0 @ T)) | fits 12;1-
003 7.3.1, ptr_septr, n = 2 | 2 2 2 | ((E @ x>y) * (E @ y>x)) | fits 12;21
003 7.3.1, ptr_septr, n = 3 | 3 3 3 | (((E @ x>y) * (E @ y>z)) * (E @ z>x)) | fits 123;231
003 7.3.2, at the empty heap | 2 2 2 | (x>y @ x>y) | fits 12;--
003 7.3.2, not with the pointer | 2 2 2 | (x>y @ x>y) | not 12;2-
003 7.3.2, at the empty heap only | 2 3 3 | ((x>y @ x>y) & N) | none
";
