// Questions on a card: how long a given order is, the start that no pair binds, which candidate a number is, and where it is. The card's
// own refusals come first.
#![tactic(auto)]

ghost use Rattle.answer.specs.Answer.{unless};
ghost use Rattle.answer.specs.Room.{listed};
ghost use Rattle.closure.specs.Limits.{contour_limit};
ghost use Rattle.std.specs.Prelude.{◌≡◌, ◌+◌, ◌-◌, leb, get_or, take, Ok};
ghost use Rattle.card.specs.Verdict.{check_of};
ghost use Rattle.answer.specs.Lowest.{refuse_if};
ghost use Rattle.candidates.specs.Generate.{blank};
ghost use Rattle.table.specs.Distances.{distances_of};
ghost use Rattle.instance.specs.Search.{candidates_on, count_on, firsts_on};
ghost use Rattle.instance.specs.Prepared.{Fit, chart_in};
ghost use Rattle.improve.specs.Search.{length_in};
ghost use Rattle.questions.specs.Order.{stop_at, met_before, bad_stop, first_bad_stop, order_check, measured_in, evaluated};
ghost use Rattle.questions.specs.Nearest.{nearest_in, nearest_of};
ghost use Rattle.questions.specs.Index.{picked_of, place_in, place_on, located_of, local_check, global_of};

use answer::{Fault, Listed, Refusal};
use candidates::Candidate;
use closure::CONTOURS;
use instance::{Instance, Prepared};
use table::{Distances, ENTRIES};

// Where a candidate is: its contour, and its number within that contour.
#[derive(Clone, Copy)]
pub struct Local {
    pub contour: usize,
    pub within: usize,
}

// The stops of a start.
pub type Stops = Listed<u8, CONTOURS>;

// The distances of a card that was prepared, in a room for those between its candidates.
fn distances_of<'a>(p: &'a Prepared, table: &'a mut [f64; ENTRIES]) -> Distances<'a>
    requires { Fit p.now }
    ensures home_is { result.home.now ≡ take p.now.all.count p.now.homes }
    ensures table_is { let t = p.now.all.count in
        result.table.now ≡ distances_of (take t p.now.all.items) (take t p.now.all.owner) }
    ensures count_is { result.count ≡ p.now.all.count }
{
    let t = p.all.count;
    table::fill_table(table, p.all.items, t, &p.all.owner[..t]);
    Distances {
        home: &p.homes[..t],
        table: &table[..t * t],
        count: t as u8,
    }
}

// ---- the length of a given order

// The contour of the stop at position p.
fn stop_at(owner: &[u8], order: &[u8], p: usize) -> u8
    ensures { result ≡ stop_at owner.now order.now p }
{
    table::byte_at(owner, table::byte_at(order, p) as usize)
}

// Whether that contour was met before.
fn met_before(owner: &[u8], order: &[u8], p: usize) -> bool
    ensures { result ≡ met_before owner.now order.now p }
{
    let k = stop_at(owner, order, p);
    (0..p).any(|j| stop_at(owner, order, j) == k)
}

// Whether the stop at position p is no candidate's, or its contour's second.
fn bad_stop(owner: &[u8], t: usize, order: &[u8], p: usize) -> bool
    ensures { result ≡ bad_stop owner.now t order.now p }
{
    t <= table::byte_at(order, p) as usize || met_before(owner, order, p)
}

// The first such position.
fn first_bad_stop(owner: &[u8], t: usize, order: &[u8]) -> Option<usize>
    ensures { result ≡ first_bad_stop owner.now t order.now }
{
    (0..order.len()).find(|&p| bad_stop(owner, t, order, p))
}

// What is wrong with an order on n contours, if anything is.
#[tactic(auto, unfolding(crate::specs::Order::order_check, answer::specs::Stage::first_refusal))]
pub fn order_check(n: usize, owner: &[u8], t: usize, order: &[u8]) -> Result<(), Refusal>
    ensures { result ≡ order_check n owner.now t order.now }
{
    if order.len() != n {
        return Err(Fault::Order.at(order.len()));
    }
    if let Some(p) = first_bad_stop(owner, t, order) {
        return Err(Fault::Order.at(p));
    }
    Ok(())
}

// How long an order is on a card that was prepared.
#[tactic(auto, unfolding(instance::specs::Prepared::chart_in))]
fn length_of(p: Prepared, order: &[u8]) -> f64
    requires { Fit p }
    ensures { result ≡ length_in (chart_in p) order.now }
{
    let mut table = [0.0; ENTRIES];
    distances_of(&p, &mut table).evaluate_solution(order)
}

// The same, if it is an order.
fn measured(p: Prepared, order: &[u8]) -> Result<f64, Refusal>
    requires { Fit p }
    ensures { result ≡ measured_in (chart_in p) p.all.contours order.now }
{
    let t = p.all.count;
    order_check(p.all.contours, &p.all.owner[..t], t, order)?;
    Ok(length_of(p, order))
}

// The length of an order of candidate numbers on a card, evaluated as a tour's is.
pub fn evaluate(card: &[u8], order: &[u8]) -> Result<f64, Refusal>
    ensures { result ≡ evaluated card.now order.now }
{
    card::check(card)?;
    measured(instance::prepare(card), order)
}

// ---- the start that no pair binds

// That start on a card that was prepared.
fn unbound(p: Prepared) -> Stops
    requires { Fit p }
    ensures { result ≡ listed contour_limit 0 (nearest_in (chart_in p) p.all.contours) }
{
    let n = p.all.contours;
    let mut table = [0.0; ENTRIES];
    let distances = distances_of(&p, &mut table);
    let mut items = [0u8; CONTOURS];
    let count = start::solve_nn(&distances, &p.all.first[..n + 1], &mut items[..n]);
    Listed { items, count }
}

// The nearest-neighbour start of a card where no contour waits for another.
pub fn solve_nn(card: &[u8]) -> Result<Stops, Refusal>
    ensures { result ≡ nearest_of card.now }
{
    card::check(card)?;
    Ok(unbound(instance::prepare(card)))
}

// ---- candidates by number

// A candidate of an accepted card.
fn candidate_of_fine(card: &[u8], number: usize) -> Result<Candidate, Refusal>
    requires { check_of card.now ≡ (Ok tt) }
    ensures { result ≡ unless (refuse_if (leb (count_on card.now) number) 15 number) (get_or (candidates_on card.now) number blank) }
{
    let all = instance::gather(card);
    if all.count <= number {
        return Err(Fault::Order.at(number));
    }
    Ok(all.items[number])
}

// The candidate with a number.
pub fn candidate(card: &[u8], number: usize) -> Result<Candidate, Refusal>
    ensures { result ≡ picked_of card.now number }
{
    card::check(card)?;
    candidate_of_fine(card, number)
}

// Where candidate a is, read from what was gathered.
pub fn locate(all: Instance, a: usize) -> Local
    ensures { result ≡ place_in all a }
{
    let contour = table::byte_at(&all.owner, a) as usize;
    Local {
        contour,
        within: a.saturating_sub(table::byte_at(&all.first, contour) as usize),
    }
}

// Where a candidate of an accepted card is.
fn place_of_fine(card: &[u8], a: usize) -> Result<Local, Refusal>
    requires { check_of card.now ≡ (Ok tt) }
    ensures { result ≡ unless (refuse_if (leb (count_on card.now) a) 15 a) (place_on card.now a) }
{
    let all = instance::gather(card);
    if all.count <= a {
        return Err(Fault::Order.at(a));
    }
    Ok(locate(all, a))
}

// The contour of a candidate, and its number within that contour.
pub fn global_to_local(card: &[u8], number: usize) -> Result<Local, Refusal>
    ensures { result ≡ located_of card.now number }
{
    card::check(card)?;
    place_of_fine(card, number)
}

// The number over the whole of an accepted card.
fn global_of_fine(card: &[u8], contour: usize, within: usize) -> Result<usize, Refusal>
    requires { check_of card.now ≡ (Ok tt) }
    ensures { result ≡ unless (local_check card.now contour within) (get_or (firsts_on card.now) contour 0 + within) }
{
    let all = instance::gather(card);
    if all.contours <= contour {
        return Err(Fault::Order.at(contour));
    }
    let from = all.first[contour] as usize;
    let end = all.first[contour + 1] as usize;
    if end - from <= within {
        return Err(Fault::Order.at(within));
    }
    Ok(from + within)
}

// The number over the whole card of a contour's candidate.
pub fn local_to_global(card: &[u8], contour: usize, within: usize) -> Result<usize, Refusal>
    ensures { result ≡ global_of card.now contour within }
{
    card::check(card)?;
    global_of_fine(card, contour, within)
}
