// The test doors as C and Rust link them: an export for each function of `probe`, under the same name and with the same contract.
#![tactic(auto)]

ghost use Rattle.std.specs.Prelude.{◌≡◌, [], length};
ghost use Rattle.probe.specs.Told.{answer_code, value_or, closest_code, nearest_or, verdict_code, way_of, asked_of, nth_of, place_of, told_or};
ghost use Rattle.root.specs.Root.{sqrt_of, root_of};
ghost use Rattle.points.specs.Points.{point};
ghost use Rattle.points.specs.Distance.{distance_of};
ghost use Rattle.grid.specs.Move.{moved};
ghost use Rattle.cost.specs.Distance.{point_distance_of, point_distance_sq_of};
ghost use Rattle.cost.specs.Closest.{closest_on_polygon_of};
ghost use Rattle.cost.specs.Rapid.{total_rapid_of};
ghost use Rattle.cost.specs.Sequence.{sequence_cost_of};
ghost use Rattle.answer.specs.Code.{code_of};
ghost use Rattle.hierarchy.specs.Questions.{num_contours, precedences_of, violates_of, predecessors_of, successors_of, valid_sequence, topological_sort};
ghost use Rattle.card.specs.Verdict.{check_of};
ghost use Rattle.fields.specs.Layout.{home_offset};
ghost use Rattle.fields.specs.Values.{point_at};
ghost use Rattle.instance.specs.Room.{instance_of};
ghost use Rattle.table.specs.Distances.{homed, tabled};
ghost use Rattle.table.specs.Evaluate.{length_of};
ghost use Rattle.start.specs.Nearest.{nearest};
ghost use Rattle.start.specs.Code.{ground_of, Written};
ghost use Rattle.improve.specs.Search.{searched};
ghost use Rattle.improve.specs.Code.{Reached, chart_of};

use closure::{CONTOURS, PAIRS};

#[unsafe(no_mangle)]
pub extern "C" fn probe_root(x: f64, out: &mut f64) -> u64
    ensures value { result ≡ answer_code (root_of x) }
    ensures out_after { out.new ≡ value_or (root_of x) out.old }
{
    probe::probe_root(x, out)
}

#[unsafe(no_mangle)]
pub extern "C" fn probe_sqrt(x: f64) -> f64
    ensures { result ≡ sqrt_of x }
{
    probe::probe_sqrt(x)
}

#[unsafe(no_mangle)]
pub extern "C" fn probe_distance(ax: f64, ay: f64, bx: f64, by: f64, out: &mut f64) -> u64
    ensures value { result ≡ answer_code (point_distance_of (point ax ay) (point bx by)) }
    ensures out_after { out.new ≡ value_or (point_distance_of (point ax ay) (point bx by)) out.old }
{
    probe::probe_distance(ax, ay, bx, by, out)
}

#[unsafe(no_mangle)]
pub extern "C" fn probe_distance_sq(ax: f64, ay: f64, bx: f64, by: f64, out: &mut f64) -> u64
    ensures value { result ≡ answer_code (point_distance_sq_of (point ax ay) (point bx by)) }
    ensures out_after { out.new ≡ value_or (point_distance_sq_of (point ax ay) (point bx by)) out.old }
{
    probe::probe_distance_sq(ax, ay, bx, by, out)
}

// A coordinate moved to the grid.
#[unsafe(no_mangle)]
pub extern "C" fn probe_moved(x: f64) -> f64
    ensures { result ≡ moved x }
{
    probe::probe_moved(x)
}

// The distance that the search works with: it refuses nothing.
#[unsafe(no_mangle)]
pub extern "C" fn probe_between(ax: f64, ay: f64, bx: f64, by: f64) -> f64
    ensures { result ≡ distance_of (point ax ay) (point bx by) }
{
    probe::probe_between(ax, ay, bx, by)
}

#[unsafe(no_mangle)]
pub extern "C" fn probe_rapid(x: f64, y: f64, legs: &[f64], out: &mut f64) -> u64
    ensures value { result ≡ answer_code (total_rapid_of (point x y) legs.now) }
    ensures out_after { out.new ≡ value_or (total_rapid_of (point x y) legs.now) out.old }
{
    probe::probe_rapid(x, y, legs, out)
}

#[unsafe(no_mangle)]
pub extern "C" fn probe_sequence_cost(total: f64, count: usize, weight: f64, out: &mut f64) -> u64
    ensures value { result ≡ answer_code (sequence_cost_of total count weight) }
    ensures out_after { out.new ≡ value_or (sequence_cost_of total count weight) out.old }
{
    probe::probe_sequence_cost(total, count, weight, out)
}

#[unsafe(no_mangle)]
pub extern "C" fn probe_closest(
    polygon: &[f64],
    px: f64,
    py: f64,
    x: &mut f64,
    y: &mut f64,
    t: &mut f64,
    vertex: &mut usize,
) -> u64
    ensures value { result ≡ closest_code (closest_on_polygon_of polygon.now (point px py)) }
    ensures x_after { x.new ≡ nearest_or (closest_on_polygon_of polygon.now (point px py)) (λ n. n.point.x) x.old }
    ensures y_after { y.new ≡ nearest_or (closest_on_polygon_of polygon.now (point px py)) (λ n. n.point.y) y.old }
    ensures t_after { t.new ≡ nearest_or (closest_on_polygon_of polygon.now (point px py)) (λ n. n.t) t.old }
    ensures vertex_after { vertex.new ≡ nearest_or (closest_on_polygon_of polygon.now (point px py)) (λ n. n.vertex) vertex.old }
{
    probe::probe_closest(polygon, px, py, x, y, t, vertex)
}

#[unsafe(no_mangle)]
pub extern "C" fn probe_num_contours(contours: usize, pairs: &[u32], out: &mut usize) -> u64
    ensures value { result ≡ answer_code (num_contours contours pairs.now) }
    ensures out_after { out.new ≡ value_or (num_contours contours pairs.now) out.old }
{
    probe::probe_num_contours(contours, pairs, out)
}

#[unsafe(no_mangle)]
pub extern "C" fn probe_violates(contours: usize, pairs: &[u32], a: u32, b: u32) -> u64
    ensures { result ≡ verdict_code (violates_of contours pairs.now a b) }
{
    probe::probe_violates(contours, pairs, a, b)
}

#[unsafe(no_mangle)]
pub extern "C" fn probe_is_valid_sequence(contours: usize, pairs: &[u32], ids: &[u32]) -> u64
    ensures { result ≡ verdict_code (valid_sequence contours pairs.now ids.now) }
{
    probe::probe_is_valid_sequence(contours, pairs, ids)
}

// A list comes as the whole array that it stands in, and its length.
#[unsafe(no_mangle)]
pub extern "C" fn probe_precedences(
    contours: usize,
    pairs: &[u32],
    ids: &mut [u32; 2 * PAIRS],
    count: &mut usize,
) -> u64
    ensures value { result ≡ answer_code (precedences_of contours pairs.now) }
    ensures ids_after { ids.new ≡ told_or (precedences_of contours pairs.now) (λ l. l.ids) ids.old }
    ensures count_after { count.new ≡ told_or (precedences_of contours pairs.now) (λ l. l.count) count.old }
{
    probe::probe_precedences(contours, pairs, ids, count)
}

#[unsafe(no_mangle)]
pub extern "C" fn probe_predecessors(
    contours: usize,
    pairs: &[u32],
    id: u32,
    ids: &mut [u32; PAIRS],
    count: &mut usize,
) -> u64
    ensures value { result ≡ answer_code (predecessors_of contours pairs.now id) }
    ensures ids_after { ids.new ≡ told_or (predecessors_of contours pairs.now id) (λ l. l.items) ids.old }
    ensures count_after { count.new ≡ told_or (predecessors_of contours pairs.now id) (λ l. l.count) count.old }
{
    probe::probe_predecessors(contours, pairs, id, ids, count)
}

#[unsafe(no_mangle)]
pub extern "C" fn probe_successors(
    contours: usize,
    pairs: &[u32],
    id: u32,
    ids: &mut [u32; PAIRS],
    count: &mut usize,
) -> u64
    ensures value { result ≡ answer_code (successors_of contours pairs.now id) }
    ensures ids_after { ids.new ≡ told_or (successors_of contours pairs.now id) (λ l. l.items) ids.old }
    ensures count_after { count.new ≡ told_or (successors_of contours pairs.now id) (λ l. l.count) count.old }
{
    probe::probe_successors(contours, pairs, id, ids, count)
}

// Candidate k of a contour: its point and end point, its vertex and direction, and how many there are.
#[unsafe(no_mangle)]
pub extern "C" fn probe_candidate(
    numbers: &[f64],
    c: usize,
    grid: u8,
    kind: u8,
    exterior: u8,
    interior: u8,
    k: usize,
    place: &mut [f64; 4],
    vertex: &mut usize,
    way: &mut u64,
    count: &mut usize,
) -> u64
    ensures value { result ≡ answer_code (asked_of numbers.now c grid kind exterior interior) }
    ensures place_after { place.new ≡ told_or (asked_of numbers.now c grid kind exterior interior) (λ found. place_of (nth_of found k)) place.old }
    ensures vertex_after { vertex.new ≡ told_or (asked_of numbers.now c grid kind exterior interior) (λ found. (nth_of found k).vertex) vertex.old }
    ensures way_after { way.new ≡ told_or (asked_of numbers.now c grid kind exterior interior) (λ found. way_of (nth_of found k).direction) way.old }
    ensures count_after { count.new ≡ told_or (asked_of numbers.now c grid kind exterior interior) (λ found. found.count) count.old }
{
    probe::probe_candidate(
        numbers, c, grid, kind, exterior, interior, k, place, vertex, way, count,
    )
}

#[unsafe(no_mangle)]
pub extern "C" fn probe_topological_sort(
    contours: usize,
    pairs: &[u32],
    positions: &mut [u32; CONTOURS],
    count: &mut usize,
) -> u64
    ensures value { result ≡ answer_code (topological_sort contours pairs.now) }
    ensures positions_after { positions.new ≡ told_or (topological_sort contours pairs.now) (λ l. l.items) positions.old }
    ensures count_after { count.new ≡ told_or (topological_sort contours pairs.now) (λ l. l.count) count.old }
{
    probe::probe_topological_sort(contours, pairs, positions, count)
}

#[unsafe(no_mangle)]
pub extern "C" fn probe_check(card: &[u8]) -> u64
    ensures { result ≡ code_of (check_of card.now) }
{
    probe::probe_check(card)
}

#[unsafe(no_mangle)]
pub extern "C" fn probe_evaluate(home: &[f64], table: &[f64], t: u8, tour: &[u8]) -> f64
    ensures { result ≡ length_of home.now table.now t tour.now }
{
    probe::probe_evaluate(home, table, t, tour)
}

#[unsafe(no_mangle)]
pub extern "C" fn probe_improve(
    home: &[f64],
    table: &[f64],
    t: u8,
    owner: &[u8],
    first: &[u8],
    pairs: &[u8],
    tour: &mut [u8],
    passes: u32,
    limit: u32,
) -> u64
    ensures { Reached result tour.new
        (searched (chart_of home.now table.now t owner.now first.now pairs.now) passes limit tour.old) }
{
    probe::probe_improve(home, table, t, owner, first, pairs, tour, passes, limit)
}

#[unsafe(no_mangle)]
pub extern "C" fn probe_start(
    home: &[f64],
    table: &[f64],
    t: u8,
    first: &[u8],
    pairs: &[u8],
    tour: &mut [u8],
) -> usize
    ensures { let n = length tour.old in
        Written (nearest (ground_of home.now table.now t first.now pairs.now) n) tour.old result tour.new }
{
    probe::probe_start(home, table, t, first, pairs, tour)
}

#[unsafe(no_mangle)]
pub extern "C" fn probe_solve_nn(
    home: &[f64],
    table: &[f64],
    t: u8,
    first: &[u8],
    tour: &mut [u8],
) -> usize
    ensures { let n = length tour.old in
        Written (nearest (ground_of home.now table.now t first.now []) n) tour.old result tour.new }
{
    probe::probe_solve_nn(home, table, t, first, tour)
}

// The distances from home and between the candidates of a card, and how many candidates there are.
#[unsafe(no_mangle)]
pub extern "C" fn probe_distances(
    card: &[u8],
    home: &mut [f64],
    table: &mut [f64],
    count: &mut usize,
)
    ensures home_after { home.new ≡ homed (instance_of card.now).items (instance_of card.now).count (point_at card.now home_offset) home.old }
    ensures table_after { table.new ≡ tabled (instance_of card.now).items (instance_of card.now).count (instance_of card.now).owner table.old }
    ensures count_after { count.new ≡ (instance_of card.now).count }
{
    probe::probe_distances(card, home, table, count)
}
