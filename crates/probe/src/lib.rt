// Test doors: inner functions under plain names for C and Rust, for comparisons and speed runs only. A door forwards, and
// promises what the function behind it promises. One that can refuse answers 0 and writes, or answers the refusal as one
// number and keeps all it is lent.
#![tactic(auto)]

ghost use Rattle.std.specs.Prelude.{◌≡◌, [], length};
ghost use Rattle.probe.specs.Told.{answer_code, value_or, closest_code, nearest_or, verdict_code, way_of, asked_of, nth_of, place_of, told_or};
ghost use Rattle.root.specs.Root.{sqrt_of, root_of};
ghost use Rattle.points.specs.Points.{point};
ghost use Rattle.points.specs.Distance.{distance_of};
ghost use Rattle.grid.specs.Move.{moved};
ghost use Rattle.cost.specs.Distance.{point_distance_of, point_distance_sq_of};
ghost use Rattle.cost.specs.Closest.{closest_on_polygon_of};
ghost use Rattle.cost.specs.Rapid.{total_rapid_of};
ghost use Rattle.cost.specs.Sequence.{sequence_cost_of};
ghost use Rattle.answer.specs.Code.{code_of};
ghost use Rattle.hierarchy.specs.Questions.{num_contours, precedences_of, violates_of, predecessors_of, successors_of, valid_sequence, topological_sort};
ghost use Rattle.card.specs.Verdict.{check_of};
ghost use Rattle.fields.specs.Layout.{home_offset};
ghost use Rattle.fields.specs.Values.{point_at};
ghost use Rattle.instance.specs.Room.{instance_of};
ghost use Rattle.table.specs.Distances.{homed, tabled};
ghost use Rattle.table.specs.Evaluate.{length_of};
ghost use Rattle.start.specs.Nearest.{nearest};
ghost use Rattle.start.specs.Code.{ground_of, Written};
ghost use Rattle.improve.specs.Search.{searched};
ghost use Rattle.improve.specs.Code.{Reached, chart_of};

use answer::{ContourType, CutDirection, CutDirectionPreference, Listed, Point, Refusal};
use candidates::{Candidate, Candidates};
use closure::{CONTOURS, PAIRS};
use cost::Nearest;
use improve::Chart;
use table::Distances;

// Tells what was asked for, or the refusal.
fn tell<T: Copy>(a: Result<T, Refusal>, out: &mut T) -> u64
    ensures value { result ≡ answer_code a }
    ensures out_after { out.new ≡ value_or a out.old }
{
    match a {
        Ok(x) => {
            *out = x;
            0
        }
        Err(refusal) => answer::code(Err(refusal)),
    }
}

pub fn probe_root(x: f64, out: &mut f64) -> u64
    ensures value { result ≡ answer_code (root_of x) }
    ensures out_after { out.new ≡ value_or (root_of x) out.old }
{
    tell(root::root(x), out)
}

pub fn probe_sqrt(x: f64) -> f64
    ensures { result ≡ sqrt_of x }
{
    root::sqrt(x)
}

pub fn probe_distance(ax: f64, ay: f64, bx: f64, by: f64, out: &mut f64) -> u64
    ensures value { result ≡ answer_code (point_distance_of (point ax ay) (point bx by)) }
    ensures out_after { out.new ≡ value_or (point_distance_of (point ax ay) (point bx by)) out.old }
{
    tell(
        cost::point_distance(Point { x: ax, y: ay }, Point { x: bx, y: by }),
        out,
    )
}

pub fn probe_distance_sq(ax: f64, ay: f64, bx: f64, by: f64, out: &mut f64) -> u64
    ensures value { result ≡ answer_code (point_distance_sq_of (point ax ay) (point bx by)) }
    ensures out_after { out.new ≡ value_or (point_distance_sq_of (point ax ay) (point bx by)) out.old }
{
    tell(
        cost::point_distance_sq(Point { x: ax, y: ay }, Point { x: bx, y: by }),
        out,
    )
}

// A coordinate moved to the grid.
pub fn probe_moved(x: f64) -> f64
    ensures { result ≡ moved x }
{
    grid::moved(x)
}

// The distance that the search works with: it refuses nothing.
pub fn probe_between(ax: f64, ay: f64, bx: f64, by: f64) -> f64
    ensures { result ≡ distance_of (point ax ay) (point bx by) }
{
    points::distance(Point { x: ax, y: ay }, Point { x: bx, y: by })
}

pub fn probe_rapid(x: f64, y: f64, legs: &[f64], out: &mut f64) -> u64
    ensures value { result ≡ answer_code (total_rapid_of (point x y) legs.now) }
    ensures out_after { out.new ≡ value_or (total_rapid_of (point x y) legs.now) out.old }
{
    tell(cost::total_rapid_distance(Point { x, y }, legs), out)
}

pub fn probe_sequence_cost(total: f64, count: usize, weight: f64, out: &mut f64) -> u64
    ensures value { result ≡ answer_code (sequence_cost_of total count weight) }
    ensures out_after { out.new ≡ value_or (sequence_cost_of total count weight) out.old }
{
    tell(cost::sequence_cost(total, count, weight), out)
}

// Tells a closest place: 1 where there is none.
fn tell_closest(
    a: Result<Option<Nearest>, Refusal>,
    x: &mut f64,
    y: &mut f64,
    t: &mut f64,
    vertex: &mut usize,
) -> u64
    ensures value { result ≡ closest_code a }
    ensures x_after { x.new ≡ nearest_or a (λ n. n.point.x) x.old }
    ensures y_after { y.new ≡ nearest_or a (λ n. n.point.y) y.old }
    ensures t_after { t.new ≡ nearest_or a (λ n. n.t) t.old }
    ensures vertex_after { vertex.new ≡ nearest_or a (λ n. n.vertex) vertex.old }
{
    match a {
        Ok(Some(n)) => {
            *x = n.point.x;
            *y = n.point.y;
            *t = n.t;
            *vertex = n.vertex;
            0
        }
        Ok(None) => 1,
        Err(r) => answer::code(Err(r)),
    }
}

pub fn probe_closest(
    polygon: &[f64],
    px: f64,
    py: f64,
    x: &mut f64,
    y: &mut f64,
    t: &mut f64,
    vertex: &mut usize,
) -> u64
    ensures value { result ≡ closest_code (closest_on_polygon_of polygon.now (point px py)) }
    ensures x_after { x.new ≡ nearest_or (closest_on_polygon_of polygon.now (point px py)) (λ n. n.point.x) x.old }
    ensures y_after { y.new ≡ nearest_or (closest_on_polygon_of polygon.now (point px py)) (λ n. n.point.y) y.old }
    ensures t_after { t.new ≡ nearest_or (closest_on_polygon_of polygon.now (point px py)) (λ n. n.t) t.old }
    ensures vertex_after { vertex.new ≡ nearest_or (closest_on_polygon_of polygon.now (point px py)) (λ n. n.vertex) vertex.old }
{
    tell_closest(
        cost::closest_point_on_polygon(polygon, Point { x: px, y: py }),
        x,
        y,
        t,
        vertex,
    )
}

pub fn probe_num_contours(contours: usize, pairs: &[u32], out: &mut usize) -> u64
    ensures value { result ≡ answer_code (num_contours contours pairs.now) }
    ensures out_after { out.new ≡ value_or (num_contours contours pairs.now) out.old }
{
    tell(hierarchy::num_contours(contours, pairs), out)
}

// Tells yes as 1 and no as 0.
fn tell_verdict(a: Result<bool, Refusal>) -> u64
    ensures { result ≡ verdict_code a }
{
    match a {
        Ok(yes) => u64::from(yes),
        Err(r) => answer::code(Err(r)),
    }
}

pub fn probe_violates(contours: usize, pairs: &[u32], a: u32, b: u32) -> u64
    ensures { result ≡ verdict_code (violates_of contours pairs.now a b) }
{
    tell_verdict(hierarchy::violates(contours, pairs, a, b))
}

pub fn probe_is_valid_sequence(contours: usize, pairs: &[u32], ids: &[u32]) -> u64
    ensures { result ≡ verdict_code (valid_sequence contours pairs.now ids.now) }
{
    tell_verdict(hierarchy::is_valid_sequence(contours, pairs, ids))
}

// A list comes as the whole array that it stands in, and its length.
pub fn probe_precedences(
    contours: usize,
    pairs: &[u32],
    ids: &mut [u32; 2 * PAIRS],
    count: &mut usize,
) -> u64
    ensures value { result ≡ answer_code (precedences_of contours pairs.now) }
    ensures ids_after { ids.new ≡ told_or (precedences_of contours pairs.now) (λ l. l.ids) ids.old }
    ensures count_after { count.new ≡ told_or (precedences_of contours pairs.now) (λ l. l.count) count.old }
{
    match hierarchy::precedences(contours, pairs) {
        Ok(list) => {
            // Here and below an array goes through a name of its own: stored straight from the field, it is not proved (the borrow check).
            let numbers = list.ids;
            *ids = numbers;
            *count = list.count;
            0
        }
        Err(r) => answer::code(Err(r)),
    }
}

// Tells a list, and how many there are.
fn tell_listed<const N: usize>(
    found: Result<Listed<u32, N>, Refusal>,
    items: &mut [u32; N],
    count: &mut usize,
) -> u64
    ensures value { result ≡ answer_code found.entry }
    ensures items_after { items.new ≡ told_or found.entry (λ l. l.items) items.old }
    ensures count_after { count.new ≡ told_or found.entry (λ l. l.count) count.old }
{
    match found {
        Ok(list) => {
            let all = list.items;
            *items = all;
            *count = list.count;
            0
        }
        Err(r) => answer::code(Err(r)),
    }
}

pub fn probe_predecessors(
    contours: usize,
    pairs: &[u32],
    id: u32,
    ids: &mut [u32; PAIRS],
    count: &mut usize,
) -> u64
    ensures value { result ≡ answer_code (predecessors_of contours pairs.now id) }
    ensures ids_after { ids.new ≡ told_or (predecessors_of contours pairs.now id) (λ l. l.items) ids.old }
    ensures count_after { count.new ≡ told_or (predecessors_of contours pairs.now id) (λ l. l.count) count.old }
{
    tell_listed(hierarchy::predecessors(contours, pairs, id), ids, count)
}

pub fn probe_successors(
    contours: usize,
    pairs: &[u32],
    id: u32,
    ids: &mut [u32; PAIRS],
    count: &mut usize,
) -> u64
    ensures value { result ≡ answer_code (successors_of contours pairs.now id) }
    ensures ids_after { ids.new ≡ told_or (successors_of contours pairs.now id) (λ l. l.items) ids.old }
    ensures count_after { count.new ≡ told_or (successors_of contours pairs.now id) (λ l. l.count) count.old }
{
    tell_listed(hierarchy::successors(contours, pairs, id), ids, count)
}

// A direction as the number that hosts know it by. (No `From`: neither type is of this crate.)
fn way_of(d: CutDirection) -> u64
    ensures { result ≡ way_of d }
{
    match d {
        CutDirection::Ccw => 0,
        CutDirection::Cw => 1,
    }
}

// Candidate k; past the eighth the first.
fn nth(found: Candidates, k: usize) -> Candidate
    ensures { result ≡ nth_of found k }
{
    found.items[if k < 8 { k } else { 0 }]
}

// The candidates of a contour, asked by numbers as on a card.
fn offered(
    numbers: &[f64],
    c: usize,
    grid: u8,
    kind: u8,
    exterior: u8,
    interior: u8,
) -> Result<Candidates, Refusal>
    ensures { result ≡ asked_of numbers.now c grid kind exterior interior }
{
    candidates::contour_candidates(
        numbers,
        c,
        grid == 1,
        ContourType::from(kind),
        CutDirectionPreference::from(exterior),
        CutDirectionPreference::from(interior),
    )
}

// Candidate k of a contour: its point and end point, its vertex and direction, and how many there are.
pub fn probe_candidate(
    numbers: &[f64],
    c: usize,
    grid: u8,
    kind: u8,
    exterior: u8,
    interior: u8,
    k: usize,
    place: &mut [f64; 4],
    vertex: &mut usize,
    way: &mut u64,
    count: &mut usize,
) -> u64
    ensures value { result ≡ answer_code (asked_of numbers.now c grid kind exterior interior) }
    ensures place_after { place.new ≡ told_or (asked_of numbers.now c grid kind exterior interior) (λ found. place_of (nth_of found k)) place.old }
    ensures vertex_after { vertex.new ≡ told_or (asked_of numbers.now c grid kind exterior interior) (λ found. (nth_of found k).vertex) vertex.old }
    ensures way_after { way.new ≡ told_or (asked_of numbers.now c grid kind exterior interior) (λ found. way_of (nth_of found k).direction) way.old }
    ensures count_after { count.new ≡ told_or (asked_of numbers.now c grid kind exterior interior) (λ found. found.count) count.old }
{
    match offered(numbers, c, grid, kind, exterior, interior) {
        Ok(found) => {
            *count = found.count;
            let n = nth(found, k);
            *place = [n.x, n.y, n.end_x, n.end_y];
            *vertex = n.vertex;
            *way = way_of(n.direction);
            0
        }
        Err(r) => answer::code(Err(r)),
    }
}

pub fn probe_topological_sort(
    contours: usize,
    pairs: &[u32],
    positions: &mut [u32; CONTOURS],
    count: &mut usize,
) -> u64
    ensures value { result ≡ answer_code (topological_sort contours pairs.now) }
    ensures positions_after { positions.new ≡ told_or (topological_sort contours pairs.now) (λ l. l.items) positions.old }
    ensures count_after { count.new ≡ told_or (topological_sort contours pairs.now) (λ l. l.count) count.old }
{
    tell_listed(
        hierarchy::topological_sort(contours, pairs),
        positions,
        count,
    )
}

pub fn probe_check(card: &[u8]) -> u64
    ensures { result ≡ code_of (check_of card.now) }
{
    answer::code(card::check(card))
}

// The distances as the search takes them.
fn distances<'a>(home: &'a [f64], table: &'a [f64], t: u8) -> Distances<'a>
    ensures home_is { result.home.now ≡ home.now }
    ensures table_is { result.table.now ≡ table.now }
    ensures count_is { result.count ≡ t }
{
    Distances {
        home,
        table,
        count: t,
    }
}

pub fn probe_evaluate(home: &[f64], table: &[f64], t: u8, tour: &[u8]) -> f64
    ensures { result ≡ length_of home.now table.now t tour.now }
{
    distances(home, table, t).evaluate_solution(tour)
}

pub fn probe_improve(
    home: &[f64],
    table: &[f64],
    t: u8,
    owner: &[u8],
    first: &[u8],
    pairs: &[u8],
    tour: &mut [u8],
    passes: u32,
    limit: u32,
) -> u64
    ensures { Reached result tour.new
        (searched (chart_of home.now table.now t owner.now first.now pairs.now) passes limit tour.old) }
{
    let chart = Chart {
        distances: distances(home, table, t),
        owner,
        first,
        pairs,
    };
    improve::improve(&chart, tour, passes, limit)
}

pub fn probe_start(
    home: &[f64],
    table: &[f64],
    t: u8,
    first: &[u8],
    pairs: &[u8],
    tour: &mut [u8],
) -> usize
    ensures { let n = length tour.old in
        Written (nearest (ground_of home.now table.now t first.now pairs.now) n) tour.old result tour.new }
{
    start::nn_constrained(&distances(home, table, t), first, pairs, tour)
}

pub fn probe_solve_nn(home: &[f64], table: &[f64], t: u8, first: &[u8], tour: &mut [u8]) -> usize
    ensures { let n = length tour.old in
        Written (nearest (ground_of home.now table.now t first.now []) n) tour.old result tour.new }
{
    start::solve_nn(&distances(home, table, t), first, tour)
}

// The distances from home and between the candidates of a card, and how many candidates there are.
pub fn probe_distances(card: &[u8], home: &mut [f64], table: &mut [f64], count: &mut usize)
    ensures home_after { home.new ≡ homed (instance_of card.now).items (instance_of card.now).count (point_at card.now home_offset) home.old }
    ensures table_after { table.new ≡ tabled (instance_of card.now).items (instance_of card.now).count (instance_of card.now).owner table.old }
    ensures count_after { count.new ≡ (instance_of card.now).count }
{
    let all = instance::gather(card);
    table::fill_home(home, all.items, all.count, fields::home(card));
    table::fill_table(table, all.items, all.count, &all.owner);
    *count = all.count;
}
