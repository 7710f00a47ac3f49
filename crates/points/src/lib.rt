// Points and edges out of a flat list of numbers, which numbers can be coordinates, and distances: total on every float, for the questions of `cost`
// and for the search.
#![tactic(auto)]

ghost use Rattle.std.specs.Prelude.{◌≡◌, get_or};
ghost use Rattle.points.specs.Points.{points, nowhere, no_ends, edges};
ghost use Rattle.points.specs.Bad.{bad_number, bad_point, first_bad};
ghost use Rattle.points.specs.Distance.{distance_sq_of, distance_of};
ghost use Rattle.points.specs.Along.{along_of};

use answer::Point;

// The largest size of a coordinate, in millimetres.
pub const LARGEST: f64 = 1048576.0;

// The largest finite number.
pub const HUGE: f64 = 1.7976931348623157e308;

// 1e-12: what is shorter has no direction.
pub const TINY: f64 = 1e-12;

// Where something begins and where it ends: an edge of a polygon, or a leg of a sequence.
#[derive(Clone, Copy)]
pub struct Ends {
    pub start: Point,
    pub finish: Point,
}

// Whether a number cannot be a coordinate.
pub fn bad_number(x: f64) -> bool
    ensures { result ≡ bad_number x }
{
    !(-LARGEST <= x && x <= LARGEST)
}

// Whether a point has such a number.
pub fn bad_point(p: Point) -> bool
    ensures { result ≡ bad_point p }
{
    bad_number(p.x) || bad_number(p.y)
}

// Point k of a flat list of numbers, two to a point. Past the last whole point it is no place at all.
pub fn point_at(numbers: &[f64], k: usize) -> Point
    ensures { result ≡ get_or (points numbers.now) k nowhere }
{
    if k < numbers.len() / 2 {
        Point {
            x: numbers[2 * k],
            y: numbers[2 * k + 1],
        }
    } else {
        Point {
            x: f64::NAN,
            y: f64::NAN,
        }
    }
}

// Edge i of the polygon with these vertices: from vertex i to the next, from the last one to the first.
pub fn edge_at(numbers: &[f64], i: usize) -> Ends
    ensures { result ≡ get_or (edges (points numbers.now)) i no_ends }
{
    let next = i.saturating_add(1);
    let next = if next == numbers.len() / 2 { 0 } else { next };
    Ends {
        start: point_at(numbers, i),
        finish: point_at(numbers, next),
    }
}

// The first bad one of the first `count` points of a flat list of numbers.
pub fn first_bad(numbers: &[f64], count: usize) -> Option<usize>
    ensures { result ≡ first_bad numbers.now count }
{
    (0..count).find(|&k| bad_point(point_at(numbers, k)))
}

// The squared distance of two points.
pub fn distance_sq(a: Point, b: Point) -> f64
    ensures { result ≡ distance_sq_of a b }
{
    let dx = b.x - a.x;
    let dy = b.y - a.y;
    dx * dx + dy * dy
}

// The distance of two points. Total: it serves coordinates that an accepted card leads to, a little beyond the limit too.
pub fn distance(a: Point, b: Point) -> f64
    ensures { result ≡ distance_of a b }
{
    root::sqrt(distance_sq(a, b))
}

// The point at t of an edge.
pub fn along(e: Ends, t: f64) -> Point
    ensures { result ≡ along_of e t }
{
    let a = e.start;
    let b = e.finish;
    Point {
        x: a.x + t * (b.x - a.x),
        y: a.y + t * (b.y - a.y),
    }
}
