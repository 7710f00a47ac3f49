// Where on a contour's boundary, or on the grid beside it, the beam may pierce, and which way round the contour is cut.
#![tactic(auto)]

ghost use Rattle.std.specs.Prelude.{◌≡◌, ◌≤◌, true, [], ◌∷◌, slice_index_or};
ghost use Rattle.std.specs.Float.{binary64, float_is_finite};
ghost use Rattle.std.specs.Float.Ieee.{lt, rem};
ghost use Rattle.root.specs.Steps.{has_root};
ghost use Rattle.fields.specs.Limits.{per_contour_limit};
ghost use Rattle.points.specs.Numbers.{zero64};
ghost use Rattle.points.specs.Points.{points, nowhere};
ghost use Rattle.candidates.specs.Direction.{direction_of};
ghost use Rattle.candidates.specs.Along.{edge_length, perimeter_of, reaches, on_edge, spot, spot_at, last_spot};
ghost use Rattle.candidates.specs.Generate.{candidate_at, target, moved_if, spaced, candidates_of, filled};
ghost use Rattle.candidates.specs.Question.{outside, contour_check, one_contour, offered_of};

use answer::{ContourType, CutDirection, CutDirectionPreference, Fault, Listed, Point, Refusal};
use fields::{PER_CONTOUR, VERTICES};
use points::{Ends, TINY};

// A place where the beam may pierce: the point, where the beam stands after the cut, the vertex at which the edge starts that
// the point was found on, and which way round the contour is cut.
#[derive(Clone, Copy)]
pub struct Candidate {
    pub x: f64,
    pub y: f64,
    pub end_x: f64,
    pub end_y: f64,
    pub vertex: usize,
    pub direction: CutDirection,
}

// A contour's candidates.
pub type Candidates = Listed<Candidate, PER_CONTOUR>;

// A place found on a contour's boundary, or moved from there to the grid, and the vertex at which the edge starts that it was
// found on.
#[derive(Clone, Copy)]
pub struct Spot {
    pub point: Point,
    pub vertex: usize,
}

// Which way round a contour is cut. What is asked for comes as three and no struct here and below: each caller reads the kind and
// the two preferences in three places of a card, and only this function looks at them, so that the struct would be made to be taken apart.
pub fn determine_direction(
    kind: ContourType,
    exterior: CutDirectionPreference,
    interior: CutDirectionPreference,
) -> CutDirection
    ensures { result ≡ direction_of kind exterior interior }
{
    let asked = match kind {
        ContourType::Exterior => exterior,
        ContourType::Interior => interior,
    };
    match (asked, kind) {
        (CutDirectionPreference::Ccw, _) => CutDirection::Ccw,
        (CutDirectionPreference::Cw, _) => CutDirection::Cw,
        (CutDirectionPreference::Auto, ContourType::Exterior) => CutDirection::Ccw,
        (CutDirectionPreference::Auto, ContourType::Interior) => CutDirection::Cw,
    }
}

// The length of an edge.
pub fn length_of(e: Ends) -> f64
    ensures { result ≡ edge_length e }
{
    points::distance(e.start, e.finish)
}

// The length of the way around a contour.
pub fn perimeter(numbers: &[f64]) -> f64
    ensures { result ≡ perimeter_of (points numbers.now) }
{
    let n = numbers.len() / 2;
    let mut sum = 0.0;
    for i in 0..n {
        sum += length_of(points::edge_at(numbers, i));
    }
    sum
}

// Whether the distance d falls on an edge that begins and ends at these distances.
pub fn on_the_way(d: f64, before: f64, after: f64) -> bool
    ensures { result ≡ reaches d before after }
{
    before <= d && d <= after + TINY
}

// The place at the distance d on edge i, which begins at `before`.
fn on_edge(d: f64, i: usize, before: f64, e: Ends) -> Spot
    ensures { result ≡ on_edge d i before e }
{
    let length = length_of(e);
    let point = if length < TINY {
        e.start
    } else {
        points::along(e, (d - before) / length)
    };
    Spot { point, vertex: i }
}

// The last vertex of a contour.
pub fn last_spot(numbers: &[f64]) -> Spot
    ensures { result ≡ last_spot (points numbers.now) }
{
    let last = (numbers.len() / 2).saturating_sub(1);
    Spot {
        point: points::point_at(numbers, last),
        vertex: last,
    }
}

// The place at the distance d along the way around a contour.
pub fn spot_at(numbers: &[f64], d: f64) -> Spot
    ensures { result ≡ spot_at (points numbers.now) d }
{
    let n = numbers.len() / 2;
    let mut before = 0.0;
    for i in 0..n {
        let e = points::edge_at(numbers, i);
        let after = before + length_of(e);
        if on_the_way(d, before, after) {
            return on_edge(d, i, before, e);
        }
        before = after;
    }
    last_spot(numbers)
}

// A candidate at a spot: cut once around, the beam comes back to the point.
fn candidate_at(direction: CutDirection, s: Spot) -> Candidate
    ensures { result ≡ candidate_at direction s }
{
    Candidate {
        x: s.point.x,
        y: s.point.y,
        end_x: s.point.x,
        end_y: s.point.y,
        vertex: s.vertex,
        direction,
    }
}

// What stands in the places that are not used.
pub const BLANK: Candidate = Candidate {
    x: 0.0,
    y: 0.0,
    end_x: 0.0,
    end_y: 0.0,
    vertex: 0,
    direction: CutDirection::Ccw,
};

// No candidates at all.
fn none() -> Candidates
    ensures { result ≡ filled [] }
{
    let items = [BLANK; PER_CONTOUR];
    Listed { items, count: 0 }
}

// The first vertex as the only candidate.
fn first_vertex(direction: CutDirection, numbers: &[f64]) -> Candidates
    ensures { result ≡ filled (candidate_at direction (spot (slice_index_or (points numbers.now) 0 nowhere) 0) ∷ []) }
{
    let mut items = [BLANK; PER_CONTOUR];
    items[0] = candidate_at(
        direction,
        Spot {
            point: points::point_at(numbers, 0),
            vertex: 0,
        },
    );
    Listed { items, count: 1 }
}

// 2^1023: what is below it can be doubled.
const HALF_OF_ALL: f64 = 8.98846567431158e307;

// What is left of x where y, above zero, is taken off as often as it goes: x itself below y; else what is left by twice y,
// less y where that goes once more. Each step is exact.
fn left_of(x: f64, y: f64) -> f64
    requires real_x { has_root x ≡ true }
    requires real_y { has_root y ≡ true }
    requires above { lt zero64 y ≡ true }
    ensures { result ≡ rem binary64 x y }
{
    if x < y {
        return x;
    }
    if y < HALF_OF_ALL {
        let left = left_of(x, y + y);
        if left < y {
            return left;
        }
        return left - y;
    }
    x - y
}

// The same of any finite x: what is left has its sign.
fn signed_left(x: f64, y: f64) -> f64
    requires finite_x { float_is_finite x ≡ true }
    requires real_y { has_root y ≡ true }
    requires above { lt zero64 y ≡ true }
    ensures { result ≡ rem binary64 x y }
{
    if x < 0.0 {
        -left_of(-x, y)
    } else {
        left_of(x, y)
    }
}

// The remainder of any two numbers, as `%` has it. Said by steps of its own, since `%` calls the C library's fmod, which not
// every machine that runs the programs has in the form that they are linked against.
fn rest(x: f64, y: f64) -> f64
    ensures { result ≡ rem binary64 x y }
{
    if !x.is_finite() {
        f64::NAN
    } else if y.is_infinite() {
        x
    } else if y < 0.0 {
        signed_left(x, -y)
    } else if 0.0 < y {
        signed_left(x, y)
    } else {
        f64::NAN
    }
}

// How far along the way candidate k of c is.
fn target_of(total: f64, c: usize, k: usize) -> f64
    ensures { result ≡ target total c k }
{
    let spacing = total / std::num::nearest_usize_to_f64(c);
    rest(std::num::nearest_usize_to_f64(k) * spacing, total)
}

// A spot found at a distance, on the grid where that is asked for; its vertex is the one found.
fn moved_if(grid: bool, s: Spot) -> Spot
    ensures { result ≡ moved_if grid s }
{
    if grid {
        Spot {
            point: grid::moved_point(s.point),
            ..s
        }
    } else {
        s
    }
}

// c candidates, spaced evenly along the way, on the grid where that is asked for.
fn spaced(grid: bool, direction: CutDirection, numbers: &[f64], total: f64, c: usize) -> Candidates
    requires { c ≤ per_contour_limit }
    ensures { result ≡ filled (spaced grid direction (points numbers.now) total c 0 c) }
{
    let mut items = [BLANK; PER_CONTOUR];
    for k in 0..c {
        let s = spot_at(numbers, target_of(total, c, k));
        items[k] = candidate_at(direction, moved_if(grid, s));
    }
    Listed { items, count: c }
}

// The candidates of a contour whose coordinates are known to be good; at most as many as can be held. Where the grid is
// asked for, those spaced along the way are moved to it.
pub fn candidates_of(
    numbers: &[f64],
    c: usize,
    grid: bool,
    kind: ContourType,
    exterior: CutDirectionPreference,
    interior: CutDirectionPreference,
) -> Candidates
    ensures { result ≡ filled (candidates_of grid (direction_of kind exterior interior) (points numbers.now) c) }
{
    let direction = determine_direction(kind, exterior, interior);
    if numbers.len() / 2 == 0 {
        return none();
    }
    let wanted = c.min(PER_CONTOUR);
    if wanted == 1 {
        return first_vertex(direction, numbers);
    }
    let total = perimeter(numbers);
    if total < TINY {
        return first_vertex(direction, numbers);
    }
    spaced(grid, direction, numbers, total, wanted)
}

// Whether a number is not from 1 to the most.
fn outside(most: usize, n: usize) -> bool
    ensures { result ≡ outside most n }
{
    !(1..=most).contains(&n)
}

// What is wrong with a contour.
#[tactic(auto, unfolding(crate::specs::Question::contour_check, answer::specs::Stage::first_refusal))]
pub fn contour_check(numbers: &[f64]) -> Result<(), Refusal>
    ensures { result ≡ contour_check numbers.now }
{
    let v = (numbers.len() + 1) / 2;
    if outside(VERTICES, v) {
        return Err(Fault::Contour.at(v));
    }
    if let Some(k) = points::first_bad(numbers, v) {
        return Err(Fault::Coordinate.at(k));
    }
    Ok(())
}

// What is wrong with a question about one contour.
#[tactic(auto, unfolding(crate::specs::Question::one_contour))]
fn one_contour(numbers: &[f64], c: usize) -> Result<(), Refusal>
    ensures { result ≡ one_contour numbers.now c }
{
    if outside(PER_CONTOUR, c) {
        return Err(Fault::Field.at(3));
    }
    contour_check(numbers)
}

// The candidates of one contour, for whoever asks; what is out of range is refused.
#[tactic(auto, unfolding(crate::specs::Question::offered_of))]
pub fn contour_candidates(
    numbers: &[f64],
    c: usize,
    grid: bool,
    kind: ContourType,
    exterior: CutDirectionPreference,
    interior: CutDirectionPreference,
) -> Result<Candidates, Refusal>
    ensures { result ≡ offered_of numbers.now c grid kind exterior interior }
{
    one_contour(numbers, c)?;
    Ok(candidates_of(numbers, c, grid, kind, exterior, interior))
}
