// Holding bridges: stretches of a contour that stay uncut, so that its part does not tip up. From a contour, a width and the centres along its
// way, each bridge's start, end and middle, the edge that the middle is on, and the centre's place on that edge.
#![tactic(auto)]

ghost use Rattle.std.specs.Prelude.{◌≡◌, ◌/◌, ◌≤◌, length};
ghost use Rattle.answer.specs.Room.{padded};
ghost use Rattle.fields.specs.Limits.{vertex_limit};
ghost use Rattle.points.specs.Points.{points};
ghost use Rattle.points.specs.Numbers.{zero64};
ghost use Rattle.bridge.specs.Limits.{bridge_limit, mark_limit};
ghost use Rattle.bridge.specs.Lookup.{marks, mark_at, whole_of, edge_on, held_on, spot_on};
ghost use Rattle.bridge.specs.Create.{place_on, bridge_at, bridges_at, blank};
ghost use Rattle.bridge.specs.Question.{half_of, bad_width, off_the_way, first_off, way_check, bridge_check, filled, bridges_of};

use answer::{Fault, Listed, Point, Refusal};
use candidates::Spot;
use fields::VERTICES;
use points::{Ends, TINY};

// The most bridges of a contour.
pub const BRIDGES: usize = 16;

// A mark for each vertex, and one for the end of the way.
const MARKS: usize = VERTICES + 1;

// A stretch that stays uncut: where it starts, ends and has its middle, the edge that the middle is on, and how far along that edge the centre is.
#[derive(Clone, Copy)]
pub struct Bridge {
    pub start: Point,
    pub end: Point,
    pub middle: Point,
    pub edge: usize,
    pub t: f64,
}

// A contour's bridges.
pub type Bridges = Listed<Bridge, BRIDGES>;

// ---- the two lookups

// How far along the way each vertex is, and behind the last one the whole way.
fn marks_of(numbers: &[f64]) -> [f64; MARKS]
    requires { length numbers.now / 2 ≤ vertex_limit }
    ensures { result ≡ padded mark_limit zero64 (marks (points numbers.now)) }
{
    let mut marks = [0.0; MARKS];
    let mut sum = 0.0;
    for k in 0..numbers.len() / 2 {
        sum += candidates::length_of(points::edge_at(numbers, k));
        marks[k + 1] = sum;
    }
    marks
}

// Mark k; past the last one no number.
fn mark_at(marks: &[f64], k: usize) -> f64
    ensures { result ≡ mark_at marks.now k }
{
    marks.get(k).copied().unwrap_or(f64::NAN)
}

// The length of the whole way: the last mark.
fn whole_of(marks: &[f64]) -> f64
    ensures { result ≡ whole_of marks.now }
{
    marks.last().copied().unwrap_or(f64::NAN)
}

// The first edge that the distance d falls on.
fn edge_on(marks: &[f64], d: f64) -> Option<usize>
    ensures { result ≡ edge_on marks.now d }
{
    (0..marks.len().saturating_sub(1)).find(|&k| candidates::on_the_way(
        d,
        mark_at(marks, k),
        mark_at(marks, k + 1),
    ))
}

// The place at the distance d on edge k, which begins at `before`: at a share of the edge that is held to 0 to 1.
fn held_on(d: f64, k: usize, before: f64, e: Ends) -> Spot
    ensures { result ≡ held_on d k before e }
{
    let length = candidates::length_of(e);
    let point = if length < TINY {
        e.start
    } else {
        points::along(e, cost::clamp((d - before) / length))
    };
    Spot { point, vertex: k }
}

// The place at a distance along the way, counted on around it, with its edge; the last vertex where the distance falls on no edge.
fn spot_on(numbers: &[f64], marks: &[f64], distance: f64) -> Spot
    ensures { result ≡ spot_on (points numbers.now) marks.now distance }
{
    let d = distance % whole_of(marks);
    match edge_on(marks, d) {
        Some(k) => held_on(d, k, mark_at(marks, k), points::edge_at(numbers, k)),
        None => candidates::last_spot(numbers),
    }
}

// ---- a bridge

// How far along an edge of this length, which begins at `before`, the distance c is: as it comes out, past the edge's ends too. 0 on an edge
// that is not longer than 1e-12.
fn place_on(length: f64, before: f64, c: f64) -> f64
    ensures { result ≡ place_on length before c }
{
    if TINY < length {
        (c - before) / length
    } else {
        0.0
    }
}

// The bridge with its centre at the distance c.
fn bridge_at(numbers: &[f64], marks: &[f64], half: f64, c: f64) -> Bridge
    ensures { result ≡ bridge_at (points numbers.now) marks.now half c }
{
    let whole = whole_of(marks);
    let first = spot_on(numbers, marks, (c - half + whole) % whole);
    let last = spot_on(numbers, marks, (c + half) % whole);
    let between = spot_on(numbers, marks, c);
    let edge = between.vertex;
    let length = candidates::length_of(points::edge_at(numbers, edge));
    Bridge {
        start: first.point,
        end: last.point,
        middle: between.point,
        edge,
        t: place_on(length, mark_at(marks, edge), c),
    }
}

// What stands in the places that are not used. A function and no const, since its wrong program is to be refused in the function that
// it changes (gate/refusals.sh).
fn blank() -> Bridge
    ensures { result ≡ blank }
{
    let zero = Point { x: 0.0, y: 0.0 };
    Bridge {
        start: zero,
        end: zero,
        middle: zero,
        edge: 0,
        t: 0.0,
    }
}

// ---- the question

// Half of a width.
fn half_of(width: f64) -> f64
    ensures { result ≡ half_of width }
{
    width / 2.0
}

// Whether no bridge can be so wide on a way of this length.
fn bad_width(whole: f64, width: f64) -> bool
    ensures { result ≡ bad_width whole width }
{
    !(0.0 < width && half_of(width) < whole)
}

// Whether no bridge can have its centre there on a way of this length.
fn off_the_way(whole: f64, c: f64) -> bool
    ensures { result ≡ off_the_way whole c }
{
    !(0.0 <= c && c < whole)
}

// The first such centre.
fn first_off(whole: f64, centres: &[f64]) -> Option<usize>
    ensures { result ≡ first_off whole centres.now }
{
    (0..centres.len()).find(|&k| off_the_way(whole, centres[k]))
}

// What is wrong with a way of this length, a width and the centres on it.
#[tactic(auto, unfolding(crate::specs::Question::way_check, answer::specs::Stage::first_refusal))]
fn way_check(whole: f64, width: f64, centres: &[f64]) -> Result<(), Refusal>
    requires { length centres.now ≤ bridge_limit }
    ensures { result ≡ way_check whole width centres.now }
{
    if whole < TINY {
        return Err(Fault::Way.at(0));
    }
    if bad_width(whole, width) {
        return Err(Fault::Way.at(1));
    }
    if let Some(k) = first_off(whole, centres) {
        return Err(Fault::Way.at(2 + k));
    }
    Ok(())
}

// What is wrong with a question about bridges.
#[tactic(auto, unfolding(crate::specs::Question::bridge_check))]
fn bridge_check(numbers: &[f64], width: f64, centres: &[f64]) -> Result<(), Refusal>
    ensures { result ≡ bridge_check numbers.now width centres.now }
{
    if centres.len() > BRIDGES {
        return Err(Fault::Room.at(BRIDGES));
    }
    candidates::contour_check(numbers)?;
    way_check(candidates::perimeter(numbers), width, centres)
}

// A bridge for each centre, in their order.
fn each_centre(numbers: &[f64], marks: &[f64], half: f64, centres: &[f64]) -> Bridges
    requires { length centres.now ≤ bridge_limit }
    ensures { result ≡ filled (bridges_at (points numbers.now) marks.now half centres.now) }
{
    let mut items = [blank(); BRIDGES];
    for (k, &c) in centres.iter().enumerate() {
        items[k] = bridge_at(numbers, marks, half, c);
    }
    Listed {
        items,
        count: centres.len(),
    }
}

// The bridges of a contour; what is out of range is refused.
pub fn bridges_at(numbers: &[f64], width: f64, centres: &[f64]) -> Result<Bridges, Refusal>
    ensures { result ≡ bridges_of numbers.now width centres.now }
{
    bridge_check(numbers, width, centres)?;
    let marks = marks_of(numbers);
    let end = numbers.len() / 2 + 1;
    Ok(each_centre(numbers, &marks[..end], half_of(width), centres))
}
