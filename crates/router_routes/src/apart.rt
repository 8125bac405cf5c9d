//! What two lists of candidates don't both have (own).
ghost use Rattle.std.specs.Prelude.{List};
ghost use Rattle.route_table.specs.declared.candidate.Candidate as declared;
ghost use Rattle.router_routes.specs.Ways.{AreApart};

use crate::same::same_candidate;
use route_table::Candidate;

/// What is left of both lists without the candidates that they begin with alike, and those that they end with alike.
pub(crate) fn apart<'a>(
    gone: &'a [Candidate],
    come: &'a [Candidate],
) -> (&'a [Candidate], &'a [Candidate])
    ensures { AreApart gone.now come.now result.0.now result.1.now }
{
    let (left, right) = past_first(gone, come);
    before_last(left, right)
}

/// Both lists without the candidates that they begin with alike.
fn past_first<'a>(
    gone: &'a [Candidate],
    come: &'a [Candidate],
) -> (&'a [Candidate], &'a [Candidate])
    ensures { (left right : List declared.Candidate) → AreApart result.0.now result.1.now left right
        → AreApart gone.now come.now left right }
{
    let mut place = 0;
    while place < gone.len() && place < come.len() && same_candidate(&gone[place], &come[place]) {
        place += 1;
    }
    (&gone[place..], &come[place..])
}

/// Both lists without the candidates that they end with alike.
fn before_last<'a>(
    gone: &'a [Candidate],
    come: &'a [Candidate],
) -> (&'a [Candidate], &'a [Candidate])
    ensures { (left right : List declared.Candidate) → AreApart result.0.now result.1.now left right
        → AreApart gone.now come.now left right }
{
    let (mut end, mut other) = (gone.len(), come.len());
    while end > 0 && other > 0 && same_candidate(&gone[end - 1], &come[other - 1]) {
        end -= 1;
        other -= 1;
    }
    (&gone[..end], &come[..other])
}
