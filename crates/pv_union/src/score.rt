//! Which of its members a smart union takes.

ghost use Rattle.std.specs.Prelude.{◌≡◌};
ghost use Rattle.pv_union.specs.Choice as spec;
ghost use Rattle.pv_union.specs.Choice.{choice};

use pv_fault::{Good, Grade};

/// What came of a member, without its value.
#[derive(Clone, Copy)]
pub enum Score {
    Failed,
    /// `fields` counts the fields that were given, where there are fields at all.
    Good { grade: Grade, fields: Option<u64> },
}

/// The score of what was found.
pub fn score_found(found: &Option<Good>) -> Score
    ensures { result ≡ spec.score_found found.now }
{
    match found {
        Some(good) => Score::Good {
            grade: good.grade,
            fields: good.fields,
        },
        None => Score::Failed,
    }
}

/// Whether no other member can win: it succeeded exactly, and has no count.
pub fn is_sure(score: Score) -> bool
    ensures { result ≡ spec.is_sure score }
{
    match score {
        Score::Failed => false,
        Score::Good { grade, fields } => match (grade, fields) {
            (Grade::Exact, None) => true,
            (Grade::Exact, Some(_)) => false,
            (Grade::Strict, _) => false,
            (Grade::Lax, _) => false,
        },
    }
}

fn has_more(best: Option<u64>, later: Option<u64>) -> bool
    ensures { result ≡ spec.has_more best later }
{
    match (best, later) {
        (Some(n), Some(m)) => n < m,
        (Some(_), None) => false,
        (None, _) => false,
    }
}

fn have_other(best: Option<u64>, later: Option<u64>) -> bool
    ensures { result ≡ spec.have_other best later }
{
    match (best, later) {
        (Some(n), Some(m)) => n != m,
        (Some(_), None) => false,
        (None, _) => false,
    }
}

fn is_higher(best: Grade, later: Grade) -> bool
    ensures { result ≡ spec.is_higher best later }
{
    match (best, later) {
        (Grade::Lax, Grade::Lax) => false,
        (Grade::Lax, Grade::Strict) => true,
        (Grade::Lax, Grade::Exact) => true,
        (Grade::Strict, Grade::Lax) => false,
        (Grade::Strict, Grade::Strict) => false,
        (Grade::Strict, Grade::Exact) => true,
        (Grade::Exact, _) => false,
    }
}

/// Whether a later member takes the place of the best one so far.
pub fn is_better(best: Score, later: Score) -> bool
    ensures { result ≡ spec.is_better best later }
{
    match (best, later) {
        (_, Score::Failed) => false,
        (Score::Failed, Score::Good { .. }) => true,
        (
            Score::Good {
                grade: g,
                fields: n,
            },
            Score::Good {
                grade: h,
                fields: m,
            },
        ) => has_more(n, m) || (!have_other(n, m) && is_higher(g, h)),
    }
}

/// The place of the member that is taken; `None` where all failed.
#[tactic(auto, unfolding(crate::specs::Choice::choice))]
pub fn best(scores: &[Score]) -> Option<usize>
    ensures { result ≡ choice scores.now }
{
    let mut so_far = Score::Failed;
    let mut taken = None;
    for (place, score) in scores.iter().enumerate() {
        if is_sure(*score) {
            return Some(place);
        }
        if is_better(so_far, *score) {
            so_far = *score;
            taken = Some(place);
        }
    }
    taken
}
