// The hunt for the lowest candidate that fits a node of a table, up to the end of the budget: the way through the range from 0.
#![tactic(auto)]

ghost use Rattle.std.specs.Prelude.{◌≡◌, suc, ◌≤◌, ◌<◌};
ghost use Rattle.logic.specs.Table.{Sound, tree};
ghost use Rattle.logic.specs.Search.{CandidateFits};
ghost use Rattle.cells.specs.Cells.{most};
ghost use Rattle.judge.specs.Setting.{room};
ghost use Rattle.hunt.specs.Hunt.{told, Hunted};

use candidates::{Candidate, total};
use logic::{Answer, Profile, Table};
use sweep::Quest;

// How a hunt ends, with how many candidates were tried: at the first that fits, where none fits, or where the budget is spent.
#[derive(Clone, Copy)]
pub enum Ended {
    Found { tried: u64, at: Candidate },
    Nothing { tried: u64 },
    Spent { tried: u64 },
}

// The answer of a search that is not refused.
impl From<Ended> for Answer {
    ghost from_gives = { λ ended a. a ≡ told ended };

    fn from(ended: Ended) -> Answer {
        let (number, tried) = match ended {
            Ended::Found { tried, .. } => (logic::YES, tried),
            Ended::Nothing { tried } => (logic::NO, tried),
            Ended::Spent { tried } => (logic::SPENT, tried),
        };
        Answer {
            number,
            place: 0,
            tried,
        }
    }
}

// The hunt for the lowest candidate that fits node k of the table f.
pub fn hunt(profile: Profile, f: &Table, k: usize, v: u64, n: u64, p: u64, budget: u64) -> Ended
    requires { (k < room) × Sound v f.now (suc k) × (v ≤ most) × (n ≤ most) }
    ensures { Hunted v n (CandidateFits profile v n p (tree f.now k)) budget result }
{
    let quest = Quest {
        profile,
        table: f,
        node: k,
        vars: v,
        locs: n,
        path: p,
        pairs: allpairs::all(),
    };
    let t = total(v, n);
    let end = t.min(budget);
    match quest.through(0, end) {
        Some(found) => Ended::Found {
            tried: found.number + 1,
            at: found.at,
        },
        None if t <= budget => Ended::Nothing { tried: t },
        None => Ended::Spent { tried: budget },
    }
}
