//! Whether the values of a session are shown to be the least for some limits.

ghost use Rattle.std.specs.Prelude.{◌≡◌, ◌≤◌, ◌≤ℤ◌, true, length, All, Contains, IfSome};
ghost use Rattle.cons_graph.specs.{Constraints.IsEdgeAmong, Solutions.{IsLeastSolution, Meets, value_of}};
ghost use Rattle.liao_wong.specs.Answers.{IsWithinLimit};
ghost use Rattle.pass_run.specs.Alike.{most_edges};
ghost use Rattle.first_pass.specs.Following.{listed_with};

use cons_graph::{Edge, MAX_EDGES};
use edit_session::Session;

// One comparison of signed numbers, with what it shows.
fn is_at_most(a: i64, b: i64) -> bool
    ensures { result ≡ true → a ≤ℤ b }
{
    a <= b
}

// Whether values meet an inequality.
fn is_met(edge: &Edge, x: &[i64]) -> bool
    requires among { IsEdgeAmong (length x.now) edge.now }
    requires small { All IsWithinLimit x.now }
    ensures { result ≡ true → Meets (value_of x.now) edge.now }
{
    is_at_most(edge.len, x[edge.to as usize] - x[edge.from as usize])
}

// Whether values meet each of some inequalities.
fn are_met(edges: &[Edge], x: &[i64]) -> bool
    requires among { All (IsEdgeAmong (length x.now)) edges.now }
    requires small { All IsWithinLimit x.now }
    ensures { result ≡ true → All (Meets (value_of x.now)) edges.now }
{
    for edge in edges {
        if !is_met(edge, x) {
            return false;
        }
    }
    true
}

// Whether two inequalities are equal.
fn is_same_edge(a: &Edge, b: &Edge) -> bool
    ensures { result ≡ true → a.now ≡ b.now }
{
    *a == *b
}

// Whether an inequality is the limit with a number.
fn is_limit(limits: &[Edge], number: usize, edge: &Edge) -> bool
    ensures { result ≡ true → Contains limits.now edge.now }
{
    number < limits.len() && is_same_edge(&limits[number], edge)
}

// Whether each of some inequalities is the limit with its number.
fn are_limits(edges: &[Edge], limits: &[Edge], places: &[usize]) -> bool
    ensures { result ≡ true → All (Contains limits.now) edges.now }
{
    for k in 0..edges.len() {
        if k >= places.len() || !is_limit(limits, places[k], &edges[k]) {
            return false;
        }
    }
    true
}

/// The values of a session, where they are the least solution of its first inequalities, `listed` of them, and of
/// these limits, not too many together: where they meet the limits, and each inequality after the first is the limit
/// that its place names.
pub fn shown_least<'a>(
    session: &'a Session,
    listed: u32,
    limits: &[Edge],
    places: &[usize],
) -> Option<&'a [i64]>
    requires within { listed ≤ length session.now.edges }
    requires among { All (IsEdgeAmong session.now.vars) limits.now }
    ensures least { IfSome result
        (λ x. IsLeastSolution session.now.vars (listed_with listed session.now.edges limits.now) (value_of x.now)) }
    ensures one_each { IfSome result (λ x. length x.now ≡ session.now.vars) }
    ensures small { IfSome result (λ x. All IsWithinLimit x.now) }
    ensures few { IfSome result (λ _. length (listed_with listed session.now.edges limits.now) ≤ most_edges) }
{
    let x = session.least()?;
    let edges = session.edges();
    if limits.len() > MAX_EDGES - listed as usize {
        return None;
    }
    if !are_met(limits, x) || !are_limits(&edges[listed as usize..], limits, places) {
        return None;
    }
    Some(x)
}
