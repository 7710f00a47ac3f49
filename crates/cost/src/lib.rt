// Distances, the closest point of a polygon, the length of all rapid moves, and what a sequence costs.
#![tactic(auto)]

ghost use Rattle.std.specs.Prelude.{◌≡◌, ◌/◌, ◌<◌, length, slice_index_or};
ghost use Rattle.points.specs.Points.{points, no_ends, legs};
ghost use Rattle.cost.specs.Distance.{two_points, point_distance_sq_of, point_distance_of};
ghost use Rattle.cost.specs.Closest.{clamp_of, foot_of, closer_of, closest_to, polygon_and_point, closest_on_polygon_of};
ghost use Rattle.cost.specs.Rapid.{rapid_of, home_and_legs, total_rapid_of};
ghost use Rattle.cost.specs.Sequence.{no_amount, amounts, sequence_cost_of};

use answer::{Fault, Point, Refusal};
use points::{Ends, HUGE, TINY};

// The most pierces that are counted.
pub const MOST_PIERCES: usize = 1000;

// A place on a polygon's boundary: the point, the vertex its edge starts at, and how far along the edge it is.
#[derive(Clone, Copy)]
pub struct Nearest {
    pub point: Point,
    pub vertex: usize,
    pub t: f64,
}

// The closest place found so far, and its squared distance.
#[derive(Clone, Copy)]
pub struct Best {
    pub distance: f64,
    pub nearest: Nearest,
}

// Leg k of a sequence, four numbers to a leg.
fn leg_at(numbers: &[f64], k: usize) -> Ends
    requires { k < length numbers.now / 4 }
    ensures { result ≡ slice_index_or (legs (points numbers.now)) k no_ends }
{
    Ends {
        start: points::point_at(numbers, 2 * k),
        finish: points::point_at(numbers, 2 * k + 1),
    }
}

// 8 at the first of two points that is bad: 0 or 1.
#[tactic(auto, unfolding(crate::specs::Distance::two_points, answer::specs::Stage::first_refusal))]
fn two_points(a: Point, b: Point) -> Result<(), Refusal>
    ensures { result ≡ two_points a b }
{
    if points::bad_point(a) {
        return Err(Fault::Coordinate.at(0));
    }
    if points::bad_point(b) {
        return Err(Fault::Coordinate.at(1));
    }
    Ok(())
}

// The squared distance of two points, for whoever asks; a bad point is refused.
#[tactic(auto, unfolding(crate::specs::Distance::point_distance_sq_of))]
pub fn point_distance_sq(a: Point, b: Point) -> Result<f64, Refusal>
    ensures { result ≡ point_distance_sq_of a b }
{
    two_points(a, b)?;
    Ok(points::distance_sq(a, b))
}

// The distance of two points, for whoever asks; a bad point is refused.
#[tactic(auto, unfolding(crate::specs::Distance::point_distance_of))]
pub fn point_distance(a: Point, b: Point) -> Result<f64, Refusal>
    ensures { result ≡ point_distance_of a b }
{
    two_points(a, b)?;
    Ok(points::distance(a, b))
}

// Brought into 0 to 1. What is neither below 0 nor above 1 stays as it is, -0 too.
pub fn clamp(t: f64) -> f64
    ensures { result ≡ clamp_of t }
{
    t.clamp(0.0, 1.0)
}

// How far along an edge the foot of a point falls; an edge too short to divide by counts as its start.
fn foot(p: Point, e: Ends) -> f64
    ensures { result ≡ foot_of p e }
{
    let a = e.start;
    let b = e.finish;
    let length_sq = points::distance_sq(a, b);
    if length_sq < TINY {
        0.0
    } else {
        ((p.x - a.x) * (b.x - a.x) + (p.y - a.y) * (b.y - a.y)) / length_sq
    }
}

// Edge i takes the place of the best so far only if it is strictly closer.
fn closer(p: Point, i: usize, e: Ends, best: Best) -> Best
    ensures { result ≡ closer_of p i e best }
{
    let t = clamp(foot(p, e));
    let point = points::along(e, t);
    let distance = points::distance_sq(p, point);
    if distance < best.distance {
        return Best {
            distance,
            nearest: Nearest {
                point,
                vertex: i,
                t,
            },
        };
    }
    best
}

// The closest point of a polygon whose coordinates are known to be good.
pub fn closest_to(polygon: &[f64], p: Point) -> Option<Nearest>
    ensures { result ≡ closest_to p (points polygon.now) }
{
    let n = polygon.len() / 2;
    if n == 0 {
        return None;
    }
    let mut best = Best {
        distance: HUGE,
        nearest: Nearest {
            point: points::point_at(polygon, 0),
            vertex: 0,
            t: 0.0,
        },
    };
    for i in 0..n {
        best = closer(p, i, points::edge_at(polygon, i), best);
    }
    let nearest = best.nearest;
    Some(nearest)
}

// 8 at the first bad vertex, a part of one counted, or else at the number after the last whole one for the point.
#[tactic(auto, unfolding(crate::specs::Closest::polygon_and_point, answer::specs::Stage::first_refusal))]
fn polygon_and_point(polygon: &[f64], p: Point) -> Result<(), Refusal>
    ensures { result ≡ polygon_and_point polygon.now p }
{
    let whole = polygon.len() / 2;
    let count = (polygon.len() + 1) / 2;
    if let Some(k) = points::first_bad(polygon, count) {
        return Err(Fault::Coordinate.at(k));
    }
    if points::bad_point(p) {
        return Err(Fault::Coordinate.at(whole));
    }
    Ok(())
}

// The closest point of a polygon, for whoever asks; a bad vertex or point is refused.
#[tactic(auto, unfolding(crate::specs::Closest::closest_on_polygon_of))]
pub fn closest_point_on_polygon(polygon: &[f64], p: Point) -> Result<Option<Nearest>, Refusal>
    ensures { result ≡ closest_on_polygon_of polygon.now p }
{
    polygon_and_point(polygon, p)?;
    Ok(closest_to(polygon, p))
}

// The length of all rapid moves of a sequence whose coordinates are known to be good: from home to the first leg's start, then
// from each leg's end to the next one's start.
pub fn rapid_distance(home: Point, numbers: &[f64]) -> f64
    ensures { result ≡ rapid_of home (legs (points numbers.now)) }
{
    let n = numbers.len() / 4;
    if n == 0 {
        return 0.0;
    }
    let first = leg_at(numbers, 0);
    let mut total = points::distance(home, first.start);
    let mut at = first.finish;
    for k in 1..n {
        let leg = leg_at(numbers, k);
        total += points::distance(at, leg.start);
        at = leg.finish;
    }
    total
}

// 8 at 0 for home, or else at one more than the first bad end of a leg, a leg that is begun counted.
#[tactic(auto, unfolding(crate::specs::Rapid::home_and_legs, answer::specs::Stage::first_refusal))]
fn home_and_legs(home: Point, numbers: &[f64]) -> Result<(), Refusal>
    ensures { result ≡ home_and_legs home numbers.now }
{
    if points::bad_point(home) {
        return Err(Fault::Coordinate.at(0));
    }
    let count = 2 * ((numbers.len() + 3) / 4);
    if let Some(k) = points::first_bad(numbers, count) {
        return Err(Fault::Coordinate.at(k + 1));
    }
    Ok(())
}

// The length of all rapid moves, for whoever asks; a bad home or leg is refused.
#[tactic(auto, unfolding(crate::specs::Rapid::total_rapid_of))]
pub fn total_rapid_distance(home: Point, numbers: &[f64]) -> Result<f64, Refusal>
    ensures { result ≡ total_rapid_of home numbers.now }
{
    home_and_legs(home, numbers)?;
    Ok(rapid_distance(home, numbers))
}

// Whether a number is no amount: not finite, or below zero.
fn no_amount(x: f64) -> bool
    ensures { result ≡ no_amount x }
{
    !x.is_finite() || x < 0.0
}

// 14 at 1 for a bad total, at 2 for a bad weight, at 3 for too many pierces.
#[tactic(auto, unfolding(crate::specs::Sequence::amounts, answer::specs::Stage::first_refusal))]
fn amounts(total: f64, count: usize, weight: f64) -> Result<(), Refusal>
    ensures { result ≡ amounts total count weight }
{
    if no_amount(total) {
        return Err(Fault::Amount.at(1));
    }
    if no_amount(weight) {
        return Err(Fault::Amount.at(2));
    }
    if count > MOST_PIERCES {
        return Err(Fault::Amount.at(3));
    }
    Ok(())
}

// What a sequence costs: the length of its rapid moves, and a weight for each pierce.
#[tactic(auto, unfolding(crate::specs::Sequence::sequence_cost_of))]
pub fn sequence_cost(total: f64, count: usize, weight: f64) -> Result<f64, Refusal>
    ensures { result ≡ sequence_cost_of total count weight }
{
    amounts(total, count, weight)?;
    Ok(total + weight * std::num::nearest_u64_to_f64(count as u64))
}
