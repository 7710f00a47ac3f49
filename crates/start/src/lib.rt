// Where a search begins: step by step to the nearest candidate of a contour that is ready.
#![tactic(auto)]

ghost use Rattle.std.specs.Prelude.{◌≡◌, [], length};
ghost use Rattle.start.specs.Nearest.{Ground, Way, reach_of, closer, offered, is_open, chosen, nearest};
ghost use Rattle.start.specs.Code.{ground_on, choice_of, Tells, Flags, Written};

use closure::CONTOURS;
use points::HUGE;
use table::Distances;

// A flag for each number that a contour can have.
const FLAGS: usize = 256;

// A candidate that a step may take: how far it is, and the contour that it belongs to.
#[derive(Clone, Copy)]
struct Offer {
    distance: f64,
    contour: u8,
    candidate: u8,
}

// How far candidate a is from where the tour has come to: from its last stop, or else from home.
fn reach(distances: &Distances, last: Option<u8>, a: u8) -> f64
    ensures { (g : Ground) (w : Way) → Tells distances.now last g w → result ≡ reach_of g w a }
{
    match last {
        Some(b) => distances.distance_at(b, a),
        None => distances.home_at(a),
    }
}

// The nearer of the best offer so far and one more. The former stays where the two are level, and no offer is as far as HUGE.
fn nearer(best: Option<Offer>, offer: Offer) -> Option<Offer>
    ensures { choice_of result ≡ closer offer.distance offer.contour offer.candidate (choice_of best) }
{
    let nearest = best.map_or(HUGE, |b| b.distance);
    if offer.distance < nearest {
        return Some(offer);
    }
    best
}

// The best offer after the candidates of contour k. (Distances, first and pairs are no struct, as improve's Chart is: a start reads
// no owners, and of the three functions with two of them only one takes all three.)
fn offers(
    distances: &Distances,
    first: &[u8],
    last: Option<u8>,
    k: u8,
    best: Option<Offer>,
) -> Option<Offer>
    ensures { (g : Ground) (w : Way) → Tells distances.now last g w → first.now ≡ g.first
        → choice_of result ≡ offered g w k (choice_of best) }
{
    let at = usize::from(k);
    let from = table::byte_at(first, at);
    let end = table::byte_at(first, at + 1);
    let mut choice = best;
    for a in from..end {
        let offer = Offer {
            distance: reach(distances, last, a),
            contour: k,
            candidate: a,
        };
        choice = nearer(choice, offer);
    }
    choice
}

// Contour k is not visited, and nothing is left to visit before it.
fn is_open(visited: &[u8], pairs: &[u8], k: u8) -> bool
    ensures { (g : Ground) (w : Way) → Flags visited.now w.visited → pairs.now ≡ g.pairs
        → result ≡ is_open g w k }
{
    table::byte_at(visited, usize::from(k)) == 0 && keep::is_ready(visited, pairs, k)
}

// The nearest candidate of the open ones among n contours, or none.
fn choose(
    distances: &Distances,
    first: &[u8],
    pairs: &[u8],
    visited: &[u8],
    n: u8,
    last: Option<u8>,
) -> Option<Offer>
    ensures { (g : Ground) (w : Way) → Tells distances.now last g w
        → first.now ≡ g.first → pairs.now ≡ g.pairs → Flags visited.now w.visited
        → choice_of result ≡ chosen g w n }
{
    let mut best = None;
    for k in 0..n {
        if is_open(visited, pairs, k) {
            best = offers(distances, first, last, k, best);
        }
    }
    best
}

// The nearest-neighbour start that respects the pairs, written to the front of a room for as many contours as
// there are. Says how many entries it has: none for more contours than a card takes, and fewer than contours where
// some are never ready or have no distance below the largest number.
pub fn nn_constrained(distances: &Distances, first: &[u8], pairs: &[u8], tour: &mut [u8]) -> usize
    ensures { let n = length tour.old in
        Written (nearest (ground_on distances.now first.now pairs.now) n) tour.old result tour.new }
{
    let n = tour.len();
    if n > CONTOURS {
        return 0;
    }
    let mut visited = [0u8; FLAGS];
    let mut made = 0;
    let mut last = None;
    for _ in 0..n {
        let Some(choice) = choose(distances, first, pairs, &visited, n as u8, last) else {
            continue;
        };
        tour[made] = choice.candidate;
        visited[usize::from(choice.contour)] = 1;
        last = Some(choice.candidate);
        made += 1;
    }
    made
}

// The same where no contour waits for another.
pub fn solve_nn(distances: &Distances, first: &[u8], tour: &mut [u8]) -> usize
    ensures { let n = length tour.old in
        Written (nearest (ground_on distances.now first.now []) n) tour.old result tour.new }
{
    nn_constrained(distances, first, &[], tour)
}
