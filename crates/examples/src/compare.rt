// Both judges on every candidate of a book, in the candidates' order.
use logic::{MODEL, Profile};
use second::{Bounds, Model, Sets, World};

// More than there are candidates within the second judge's bounds.
pub const BUDGET: u64 = 1000000;

// A candidate, by its number, the first being 1.
#[derive(Clone, Copy)]
struct Candidate {
    number: u64,
    model: Model,
}

// What a sweep has seen: how many candidates, on how many of them the judges agree, the first that fits by the second judge, and
// whether the model that is looked for fits by the second judge; and the lowest declared variable that no atom names, since the
// search refuses such a book.
#[derive(Clone, Copy)]
pub struct Swept {
    pub all: u64,
    same: u64,
    first: Option<Candidate>,
    pub fits: bool,
    pub stray: Option<u8>,
}

// The formula of a book that `notation` made: it stands behind the head and the bounds.
fn formula(book: &[u8]) -> &[u8] {
    book.get(14..).unwrap_or(&[])
}

impl Swept {
    // Over all candidates of the book, if the second judge can judge them.
    pub fn over(book: &[u8], bounds: Bounds, wanted: &[u8]) -> Option<Swept> {
        if !bounds.can_judge() {
            return None;
        }
        let mut swept = Swept {
            all: 0,
            same: 0,
            first: None,
            fits: false,
            stray: second::stray(formula(book), bounds.variables),
        };
        for number in 0..World::STACKS {
            if let Some(w) = World::new(bounds, number) {
                swept.take_stack(book, w, wanted);
            }
        }
        Some(swept)
    }

    fn take_stack(&mut self, book: &[u8], w: World, wanted: &[u8]) {
        let sets = Sets::of(formula(book), w);
        for number in 0..w.heaps() {
            let h = w.heap(number);
            self.take(book, Model::new(w, h), sets.fits(h), wanted);
        }
    }

    // One candidate more, both judges on it: `fits` is what the second says.
    fn take(&mut self, book: &[u8], model: Model, fits: bool, wanted: &[u8]) {
        let answer = model::judge(Profile::Strong, book, model.as_slice());
        self.all = self.all.saturating_add(1);
        if answer.number == logic::YES && fits || answer.number == logic::NO && !fits {
            self.same = self.same.saturating_add(1);
        }
        if fits && self.first.is_none() {
            self.first = Some(Candidate {
                number: self.all,
                model,
            });
        }
        if model.as_slice() == wanted {
            self.fits = fits;
        }
    }

    // Whether the judges agree on every candidate, and the search answers what the second judge has found, to the last byte, or
    // refuses the stray variable.
    pub fn agrees(self, book: &[u8]) -> bool {
        let mut out = [0u8; MODEL];
        let answer = search::search(Profile::Strong, book, BUDGET, &mut out);
        let searched = match (self.stray, self.first) {
            (Some(x), _) => {
                answer.number == logic::STRAY_VARIABLE && answer.place == u64::from(x)
            }
            (None, None) => answer.number == logic::NO && answer.tried == self.all,
            (None, Some(first)) => {
                answer.number == logic::YES
                    && answer.tried == first.number
                    && out == first.model.bytes
            }
        };
        searched && self.same == self.all
    }
}
