// Constrained 2-opt: other candidates of a contour, then stretches of the tour the other way round.
// Each trial counts one, and the search stops where one more would pass the limit.
#![tactic(auto)]

ghost use Rattle.std.specs.Prelude.{◌≡◌, false, true, cond, is_err, ◌&&◌, ◌+◌, ◌≤◌, ◌<◌, ◌^◌, ◌++◌, length, set, take, drop, reverse};
ghost use Rattle.closure.specs.Limits.{contour_limit};
ghost use Rattle.keep.specs.Keep.{keeps_pairs};
ghost use Rattle.improve.specs.Search.{length_in, legal, owner_of, contours, shorter, at_limit, turn, slice, reversed, begun, repeated, searched};
ghost use Rattle.improve.specs.Code.{Judged, Reached, counted, charted, state_of};

use closure::CONTOURS;
use table::Distances;

// What a search reads of a card: the distances, the contour that each candidate belongs to, the number of each contour's
// first candidate with the number of all at the end, and which contours come before which.
#[derive(Clone, Copy)]
pub struct Chart<'a> {
    pub distances: Distances<'a>,
    pub owner: &'a [u8],
    pub first: &'a [u8],
    pub pairs: &'a [u8],
}

// Where a search stands beside its tour: the length last accepted, whether this pass accepted a trial, and the trials so
// far.
#[derive(Clone, Copy)]
struct Progress {
    cost: f64,
    better: bool,
    moves: u64,
}

// The limit has ended the search.
#[derive(Clone, Copy)]
struct Cut;

impl Progress {
    // A trial was made, and was accepted with this length or was not.
    fn count(&mut self, accepted: Option<f64>)
        requires { self.old.moves + 1 < 2 ^ 64 }
        ensures { self.new ≡ counted accepted self.old }
    {
        self.cost = accepted.unwrap_or(self.cost);
        self.better |= accepted.is_some();
        self.moves += 1;
    }
}

// A tour is shorter by more than 1e-10.
fn is_shorter(new: f64, current: f64) -> bool
    ensures { result ≡ shorter new current }
{
    new < current - 1e-10
}

// So many trials were made that no more may begin.
fn at_limit(limit: u32, moves: u64) -> bool
    ensures { result ≡ at_limit limit moves }
{
    limit != 0 && u64::from(limit) <= moves
}

// The contour that a candidate belongs to.
fn owner_of(owner: &[u8], a: u8) -> u8
    ensures { result ≡ owner_of owner.now a }
{
    table::byte_at(owner, usize::from(a))
}

// Tries candidate a at position p, and says how long the tour is with it, where it is accepted. Where it is not, `back` comes
// there.
fn try_candidate(
    chart: &Chart,
    tour: &mut [u8],
    p: usize,
    back: u8,
    a: u8,
    cost: f64,
) -> Option<f64>
    requires { p < length tour.old }
    ensures { let new = set tour.old p a in
        let length = length_in (charted chart.now) new in
        Judged (shorter length cost) new length (set tour.old p back) result tour.new }
{
    tour[p] = a;
    let length = chart.distances.evaluate_solution(tour);
    if is_shorter(length, cost) {
        return Some(length);
    }
    tour[p] = back;
    None
}

// The turn of position p: tries the candidates of the contour that stands there, but for the one held when the turn began.
// A rejected one gives back the last one accepted in this turn, or with none the one held. (`limit` is no field of Progress, which
// changes from trial to trial, nor of Chart, which is the card's.)
fn turn_at(
    chart: &Chart,
    limit: u32,
    tour: &mut [u8],
    p: usize,
    progress: &mut Progress,
) -> Result<(), Cut>
    requires p_bound { p < length tour.old }
    requires moves_bound { progress.old.moves + 256 ≤ 2 ^ 64 }
    ensures result_after { state_of tour.new progress.new (is_err result)
        ≡ turn (charted chart.now) limit p (state_of tour.old progress.old false) }
    ensures moves_bound_2 { progress.new.moves ≤ progress.old.moves + 255 }
{
    let held = tour[p];
    let k = usize::from(owner_of(chart.owner, held));
    let from = table::byte_at(chart.first, k);
    let end = table::byte_at(chart.first, k + 1);
    for a in from..end {
        let last = tour[p];
        if a == held {
            continue;
        }
        if at_limit(limit, progress.moves) {
            return Err(Cut);
        }
        progress.count(try_candidate(chart, tour, p, last, a, progress.cost));
    }
    Ok(())
}

// No pair of contours is turned round in the tour.
fn is_legal(chart: &Chart, tour: &[u8]) -> bool
    requires { length tour.now ≤ contour_limit }
    ensures { result ≡ legal (charted chart.now) tour.now }
{
    let mut order = [0u8; CONTOURS];
    let n = tour.len();
    for (i, &a) in tour.iter().enumerate() {
        order[i] = owner_of(chart.owner, a);
    }
    keep::keeps_pairs(&order[..n], chart.pairs)
}

// How long a reversed tour is, where it is accepted: it has to be shorter than the length that counts, and legal.
fn weigh(chart: &Chart, tour: &[u8], cost: f64) -> Option<f64>
    requires { length tour.now ≤ contour_limit }
    ensures { let length = length_in (charted chart.now) tour.now in
        result ≡ cond (shorter length cost && legal (charted chart.now) tour.now) (Some length) None }
{
    let length = chart.distances.evaluate_solution(tour);
    if is_shorter(length, cost) && is_legal(chart, tour) {
        return Some(length);
    }
    None
}

// A stretch of the tour, from one place up to another, the other way round.
fn reverse(tour: &mut [u8], from: usize, to: usize)
    requires { (from ≤ to) × (to ≤ length tour.old) }
    ensures { tour.new ≡ take from tour.old ++ (reverse (slice from to tour.old) ++ drop to tour.old) }
{
    tour[from..to].reverse();
}

// Tries the tour with its stretch from i + 1 to j reversed, and says how long it is, where it is accepted.
fn try_reversal(chart: &Chart, tour: &mut [u8], i: usize, j: usize, cost: f64) -> Option<f64>
    requires tour_length { length tour.old ≤ contour_limit }
    requires j_bound { j < length tour.old }
    requires i_lt_j { i < j }
    ensures { let new = reversed i j tour.old in
        let length = length_in (charted chart.now) new in
        Judged (shorter length cost && legal (charted chart.now) new) new length tour.old result tour.new }
{
    let from = i + 1;
    let to = j + 1;
    reverse(tour, from, to);
    let accepted = weigh(chart, tour, cost);
    if accepted.is_none() {
        reverse(tour, from, to);
    }
    accepted
}

// Pass after pass: every position's turn, then every stretch of two stops or more the other way round. Left at once where
// one trial more would pass the limit, wherever in a pass that is, and after a pass that accepted nothing.
fn run(chart: &Chart, tour: &mut [u8], passes: u32, limit: u32) -> u64
    requires { length tour.old ≤ contour_limit }
    ensures { let n = length tour.old in
        Reached result tour.new (repeated (charted chart.now) limit n passes (begun (charted chart.now) tour.old)) }
{
    let n = tour.len();
    let mut progress = Progress {
        cost: chart.distances.evaluate_solution(tour),
        better: true,
        moves: 0,
    };
    'search: for _ in 0..passes {
        progress.better = false;
        for p in 0..n {
            if turn_at(chart, limit, tour, p, &mut progress).is_err() {
                break 'search;
            }
        }
        for i in 0..n.saturating_sub(1) {
            for j in i + 2..n {
                if at_limit(limit, progress.moves) {
                    break 'search;
                }
                let accepted = try_reversal(chart, tour, i, j, progress.cost);
                progress.count(accepted);
            }
        }
        if !progress.better {
            break 'search;
        }
    }
    progress.moves
}

// Improves a tour of candidate numbers in place, and says how many trials that took.
pub fn improve(chart: &Chart, tour: &mut [u8], passes: u32, limit: u32) -> u64
    ensures { Reached result tour.new (searched (charted chart.now) passes limit tour.old) }
{
    if passes == 0 || tour.len() < 3 || tour.len() > CONTOURS {
        return 0;
    }
    run(chart, tour, passes, limit)
}
