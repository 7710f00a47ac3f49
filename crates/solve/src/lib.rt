// The whole search: the nearest-neighbour start that respects the pairs, then its improvement, and the length of the tour held.
#![tactic(auto)]

ghost use Rattle.std.specs.Prelude.{length};
ghost use Rattle.improve.specs.Code.{charted};
ghost use Rattle.solve.specs.Solve.{end_in, Solved};

use improve::Chart;

// What is told of a tour: how many trials it took, and how long it is.
#[derive(Clone, Copy)]
pub struct Outcome {
    pub moves: u64,
    pub length: f64,
}

// Writes the tour to the front of a room that has an entry for each contour. The length is the one of the tour handed out.
pub fn solve_constrained(chart: &Chart, tour: &mut [u8], passes: u32, limit: u32) -> Outcome
    ensures { let n = length tour.old in
        Solved (charted chart.now) (end_in (charted chart.now) n passes limit) tour.old result tour.new }
{
    let made = start::nn_constrained(&chart.distances, chart.first, chart.pairs, tour);
    let moves = improve::improve(chart, &mut tour[..made], passes, limit);
    let length = chart.distances.evaluate_solution(&tour[..made]);
    Outcome { moves, length }
}
