// The questions on a list of pairs, each of which puts one contour before another.
#![tactic(auto)]

ghost use Rattle.std.specs.Prelude.{Bool, ℕ, ◌≡◌, ◌&&◌, eqb, ◌-◌, ◌*◌, ◌≤◌, ◌<◌, length, replicate};
ghost use Rattle.answer.specs.Answer.{unless};
ghost use Rattle.answer.specs.Room.{listed};
ghost use Rattle.closure.specs.Limits.{contour_limit, pair_limit};
ghost use Rattle.closure.specs.Pairs.{Pair, paired, some_of, is_pair, both};
ghost use Rattle.keep.specs.Keep.{last_rank, keeps_pairs};
ghost use Rattle.hierarchy.specs.Questions.{picked, pairs_check, pair_list_of, num_contours, precedences_of, violates_of, predecessors_of, successors_of, valid_sequence, topological_sort};
ghost use Rattle.hierarchy.specs.Fill.{Filled};
ghost use Rattle.hierarchy.specs.Sort.{tallied, free_below, loosened, released, queue_taken, sorted_by};
ghost use Rattle.hierarchy.specs.Code.{Finds, standing, HasRoom, Stands};

use answer::{Fault, Listed, Refusal};
use closure::{CONTOURS, PAIRS};

// Pairs, two ids a pair: the first count pairs of the array, the rest 0. (No `Listed`: its count is of pairs, its room of ids, which
// the C interface hands out side by side.)
#[derive(Clone, Copy)]
pub struct PairList {
    pub ids: [u32; 2 * PAIRS],
    pub count: usize,
}

// Ids, the rest 0.
pub type Ids = Listed<u32, PAIRS>;

// Positions in order, the rest 0.
pub type Order = Listed<u32, CONTOURS>;

// What every question on pairs refuses first.
#[tactic(auto, unfolding(crate::specs::Questions::pairs_check, answer::specs::Stage::first_refusal))]
fn check_pairs(contours: usize, pairs: &[u32]) -> Result<(), Refusal>
    ensures { result ≡ pairs_check contours pairs.now }
{
    if contours > CONTOURS {
        return Err(Fault::Field.at(1));
    }
    let whole = pairs.len() / 2;
    let half = pairs.len() % 2;
    if whole + half > PAIRS {
        return Err(Fault::Field.at(2));
    }
    if half == 1 {
        return Err(Fault::UnknownId.at(whole));
    }
    Ok(())
}

// How many contours there are.
pub fn num_contours(contours: usize, pairs: &[u32]) -> Result<usize, Refusal>
    ensures { result ≡ num_contours contours pairs.now }
{
    check_pairs(contours, pairs)?;
    Ok(contours)
}

// The pairs copied out.
fn list_pairs(pairs: &[u32]) -> PairList
    requires { length pairs.now ≤ 2 * pair_limit }
    ensures { result ≡ pair_list_of pairs.now }
{
    let mut ids = [0u32; 2 * PAIRS];
    ids[..pairs.len()].copy_from_slice(pairs);
    PairList {
        ids,
        count: pairs.len() / 2,
    }
}

// The pairs themselves, in their order.
pub fn precedences(contours: usize, pairs: &[u32]) -> Result<PairList, Refusal>
    ensures { result ≡ precedences_of contours pairs.now }
{
    check_pairs(contours, pairs)?;
    Ok(list_pairs(pairs))
}

// Whether a pair puts the one before the other.
fn has_pair(pairs: &[u32], before: u32, after: u32) -> bool
    ensures { result ≡ some_of (is_pair before after) (paired pairs.now) }
{
    pairs
        .as_chunks::<2>()
        .0
        .iter()
        .any(|&[b, a]| b == before && a == after)
}

// Whether cutting a before b breaks a pair.
pub fn violates(contours: usize, pairs: &[u32], a: u32, b: u32) -> Result<bool, Refusal>
    ensures { result ≡ violates_of contours pairs.now a b }
{
    check_pairs(contours, pairs)?;
    Ok(has_pair(pairs, b, a))
}

// The numbers that `other` finds in the pairs.
fn list_others<F: Fn(u32, u32) -> Option<u32>>(pairs: &[u32], other: F) -> Ids
    requires small { length pairs.now ≤ 2 * pair_limit }
    requires callable { F.IsAlwaysCallable other }
    ensures { (test : Pair → Bool) (pick : Pair → ℕ) → Finds (F.post other) test pick → result ≡ listed pair_limit 0 (picked test pick (paired pairs.now)) }
{
    let mut items = [0u32; PAIRS];
    let mut count = 0;
    for &[b, a] in pairs.as_chunks::<2>().0 {
        if let Some(x) = other(b, a) {
            items[count] = x;
            count += 1;
        }
    }
    Listed { items, count }
}

// The same where the pairs pass the check.
fn others<F: Fn(u32, u32) -> Option<u32>>(
    contours: usize,
    pairs: &[u32],
    other: F,
) -> Result<Ids, Refusal>
    requires { F.IsAlwaysCallable other }
    ensures { (test : Pair → Bool) (pick : Pair → ℕ) → Finds (F.post other) test pick → result ≡ unless (pairs_check contours pairs.now) (listed pair_limit 0 (picked test pick (paired pairs.now))) }
{
    check_pairs(contours, pairs)?;
    Ok(list_others(pairs, other))
}

// The ids that pairs put before this one, in the order of the pairs, repeats kept.
pub fn predecessors(contours: usize, pairs: &[u32], id: u32) -> Result<Ids, Refusal>
    ensures { result ≡ predecessors_of contours pairs.now id }
{
    others(contours, pairs, |b, a| if a == id { Some(b) } else { None })
}

// The ids that pairs put after this one, in the order of the pairs, repeats kept.
pub fn successors(contours: usize, pairs: &[u32], id: u32) -> Result<Ids, Refusal>
    ensures { result ≡ successors_of contours pairs.now id }
{
    others(contours, pairs, |b, a| if b == id { Some(a) } else { None })
}

// The last rank of an id, counted from 1; 0 where it is not there.
fn last_rank(ids: &[u32], id: u32) -> usize
    ensures { result ≡ last_rank ids.now id }
{
    ids.iter().rposition(|&x| x == id).map_or(0, |i| i + 1)
}

// Whether ids as given keep to the pairs, going by last ranks.
fn keeps_ids(ids: &[u32], pairs: &[u32]) -> bool
    ensures { result ≡ keeps_pairs ids.now pairs.now }
{
    pairs.as_chunks::<2>().0.iter().all(|&[b, a]| keep::kept_at(
        last_rank(ids, b),
        last_rank(ids, a),
    ))
}

// Whether a sequence of ids keeps to the pairs.
pub fn is_valid_sequence(contours: usize, pairs: &[u32], ids: &[u32]) -> Result<bool, Refusal>
    ensures { result ≡ valid_sequence contours pairs.now ids.now }
{
    check_pairs(contours, pairs)?;
    if ids.len() > CONTOURS {
        return Err(Fault::Order.at(ids.len()));
    }
    Ok(keeps_ids(ids, pairs))
}

// Whether both positions of a pair are below n.
fn both_below(b: u32, a: u32, n: usize) -> bool
    ensures { result ≡ both n (record { before = b; after = a }) }
{
    (b as usize) < n && (a as usize) < n
}

// How many pairs hold each position back.
fn tally(pairs: &[u32], n: usize) -> [usize; CONTOURS]
    requires { n ≤ contour_limit }
    ensures { result ≡ tallied n (paired pairs.now) (replicate contour_limit 0) }
{
    let mut waits = [0usize; CONTOURS];
    for &[b, a] in pairs.as_chunks::<2>().0 {
        if both_below(b, a, n) {
            waits[a as usize] += 1;
        }
    }
    waits
}

// The positions that nothing holds back, lowest first.
fn list_free(waits: &[usize; CONTOURS], n: usize, order: &mut [u32; CONTOURS]) -> usize
    requires { (n ≤ contour_limit) × (order.old ≡ replicate contour_limit 0) }
    ensures { Filled contour_limit order.new result (free_below waits.now n) }
{
    let mut count = 0;
    for k in 0..n {
        if waits[k] == 0 {
            order[count] = k as u32;
            count += 1;
        }
    }
    count
}

// One pair less holds a back; where it was the last one, a joins the queue.
fn loosen(
    a: usize,
    waits: &mut [usize; CONTOURS],
    order: &mut [u32; CONTOURS],
    count: usize,
) -> usize
    requires { (a < contour_limit) × HasRoom waits.old order.old count }
    ensures { Stands (loosened (standing waits.old order.old count) a) waits.new order.new result }
{
    let w = waits[a];
    if w == 1 {
        waits[a] = 0;
        order[count] = a as u32;
        return count + 1;
    }
    waits[a] = w.saturating_sub(1);
    count
}

// Whether a pair is one of x's, with both positions below n.
fn counts(b: u32, a: u32, x: u32, n: usize) -> bool
    ensures { result ≡ (eqb b x && both n (record { before = b; after = a })) }
{
    b == x && both_below(b, a, n)
}

// x's pairs hold nothing back any more.
fn release(
    pairs: &[u32],
    n: usize,
    x: u32,
    waits: &mut [usize; CONTOURS],
    order: &mut [u32; CONTOURS],
    before: usize,
) -> usize
    requires { (n ≤ contour_limit) × HasRoom waits.old order.old before }
    ensures { Stands (released n x (paired pairs.now) (standing waits.old order.old before)) waits.new order.new result }
{
    let mut count = before;
    for &[b, a] in pairs.as_chunks::<2>().0 {
        if counts(b, a, x, n) {
            count = loosen(a as usize, waits, order, count);
        }
    }
    count
}

// The positions of the queue are taken one after the other, and those that come free join it: the order is all of them.
fn take_queue(
    pairs: &[u32],
    n: usize,
    waits: &mut [usize; CONTOURS],
    order: &mut [u32; CONTOURS],
    free: usize,
) -> usize
    requires { (n ≤ contour_limit) × HasRoom waits.old order.old free }
    ensures { Filled contour_limit order.new result (queue_taken contour_limit n (paired pairs.now) (standing waits.old order.old free)).taken }
{
    let mut count = free;
    // (No `for`: the queue grows while it is taken.)
    let mut i = 0;
    while i < count {
        let x = order[i];
        count = release(pairs, n, x, waits, order, count);
        i += 1;
    }
    count
}

// The topological order of n positions between which there is no cycle.
fn sorted(n: usize, pairs: &[u32]) -> Order
    requires { n ≤ contour_limit }
    ensures { result ≡ listed contour_limit 0 (sorted_by n pairs.now) }
{
    let mut waits = tally(pairs, n);
    let mut items = [0u32; CONTOURS];
    let free = list_free(&waits, n, &mut items);
    let count = take_queue(pairs, n, &mut waits, &mut items, free);
    Listed { items, count }
}

// The positions in topological order; refused at the lowest position on a cycle.
pub fn topological_sort(contours: usize, pairs: &[u32]) -> Result<Order, Refusal>
    ensures { result ≡ topological_sort contours pairs.now }
{
    check_pairs(contours, pairs)?;
    if let Some(k) = closure::first_on_cycle_wide(contours, pairs) {
        return Err(Fault::Cycle.at(k));
    }
    Ok(sorted(contours, pairs))
}
