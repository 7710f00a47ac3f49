// The move to the grid of 1/1024 mm that a version 2 card may ask for: the grid point nearest to a coordinate.
#![tactic(auto)]

ghost use Rattle.std.specs.Prelude.{◌≡◌, ◌^◌, ◌≤◌, true};
ghost use Rattle.std.specs.Float.Ieee.{lt};
ghost use Rattle.points.specs.Numbers.{zero64};
ghost use Rattle.grid.specs.Move.{units_near, all_on_grid, moved, moved_point};

use answer::Point;

// Grid units in a millimetre, and half units.
const PER_MM: f64 = 1024.0;

const HALVES_PER_MM: f64 = 2048.0;

// 2^42: from here on every number is a whole number of grid units.
const ALL_ON_GRID: f64 = 4398046511104.0;

// How many grid units a number above zero is nearest to: its half units without their fraction, one more, by two.
fn units_near(a: f64) -> u64
    requires { (lt zero64 a ≡ true) × (lt a all_on_grid ≡ true) }
    ensures value { result ≡ units_near a }
    ensures upper_bound { result ≤ 2 ^ 52 }
{
    (std::num::truncating_f64_to_u64(a * HALVES_PER_MM) + 1) / 2
}

// A number above zero, moved to the grid.
fn moved_up(a: f64) -> f64
    requires { (lt zero64 a ≡ true) × (lt a all_on_grid ≡ true) }
    ensures { result ≡ moved a }
{
    std::num::nearest_u64_to_f64(units_near(a)) / PER_MM
}

// A coordinate moved to the nearest point of the grid, halves away from zero; a zero is +0.
pub fn moved(x: f64) -> f64
    ensures { result ≡ moved x }
{
    if 0.0 < x {
        if x < ALL_ON_GRID { moved_up(x) } else { x }
    } else if x < 0.0 {
        if -x < ALL_ON_GRID {
            0.0 - moved_up(-x)
        } else {
            x
        }
    } else {
        x + 0.0
    }
}

// Both coordinates of a point, moved.
pub fn moved_point(p: Point) -> Point
    ensures { result ≡ moved_point p }
{
    Point {
        x: moved(p.x),
        y: moved(p.y),
    }
}
