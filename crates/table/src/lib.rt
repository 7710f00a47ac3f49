// The distances between candidates, and how long a tour over them is.
#![tactic(auto)]

ghost use Rattle.std.specs.Prelude.{◌≡◌, true, cond, ◌++◌, ◌*◌, ◌≤◌, ◌<◌, get_or, take, drop, length};
ghost use Rattle.std.proofs.Math.Seq.{paste};
ghost use Rattle.std.specs.Float.{nan};
ghost use Rattle.fields.specs.Limits.{candidate_limit};
ghost use Rattle.table.specs.Evaluate.{home_at, distance_at, length_of};
ghost use Rattle.table.specs.Distances.{pierced, leaving, leg_of, leg_at, listed, row_of, homed, tabled};

use answer::Point;
use candidates::Candidate;
use fields::CANDIDATES;
use points::HUGE;

// The most entries that the distances of a card take.
pub const ENTRIES: usize = CANDIDATES * CANDIDATES;

// The float at a place, and not a number past the end.
pub fn float_at(s: &[f64], i: usize) -> f64
    ensures { result ≡ get_or s.now i nan }
{
    s.get(i).copied().unwrap_or(f64::NAN)
}

// The byte at a place, and 0 past the end.
pub fn byte_at(s: &[u8], i: usize) -> u8
    ensures { result ≡ get_or s.now i 0 }
{
    s.get(i).copied().unwrap_or(0)
}

// The distances that a search reads: from home to each of `count` candidates, and from each to each, row by row.
#[derive(Clone, Copy)]
pub struct Distances<'a> {
    pub home: &'a [f64],
    pub table: &'a [f64],
    pub count: u8,
}

impl<'a> Distances<'a> {
    // How far candidate a is from home.
    pub fn home_at(&self, a: u8) -> f64
        ensures { result ≡ home_at self.now.home.now a }
    {
        float_at(self.home, usize::from(a))
    }

    // The distance from candidate a to candidate b.
    pub fn distance_at(&self, a: u8, b: u8) -> f64
        ensures { result ≡ distance_at self.now.table.now self.now.count a b }
    {
        float_at(
            self.table,
            usize::from(a) * usize::from(self.count) + usize::from(b),
        )
    }

    // The length of a tour: the way from home to its first candidate, then leg after leg. An empty tour has length 0.
    pub fn evaluate_solution(&self, tour: &[u8]) -> f64
        ensures { result ≡ length_of self.now.home.now self.now.table.now self.now.count tour.now }
    {
        if tour.is_empty() {
            return 0.0;
        }
        let mut at = tour[0];
        let mut total = self.home_at(at);
        for &next in &tour[1..] {
            total += self.distance_at(at, next);
            at = next;
        }
        total
    }
}

// The way from one candidate of contour k to another of contour m: from where the beam stands after the first cut to where it
// pierces next. Candidates of one contour stay as far apart as can be.
fn leg(from: Candidate, k: u8, to: Candidate, m: u8) -> f64
    ensures { result ≡ leg_of from k to m }
{
    if k == m {
        return HUGE;
    }
    points::distance(
        Point {
            x: from.end_x,
            y: from.end_y,
        },
        Point { x: to.x, y: to.y },
    )
}

// Whether two numbers have the same bits. What is not a number has no other's: its bits are the processor's affair. (No `==` alone:
// it takes 0 and -0 for one.)
fn same_bits(x: f64, y: f64) -> bool
    ensures { result ≡ true → x ≡ y }
{
    x == y && x.to_bits() == y.to_bits()
}

// Whether a candidate's cut ends where it begins.
fn is_closed(c: Candidate) -> bool
    ensures { result ≡ true → leaving c ≡ pierced c }
{
    same_bits(c.end_x, c.x) && same_bits(c.end_y, c.y)
}

// How many entries of row a are known from the rows above. Where all cuts up to a are closed it is as far back as there, so all
// before the diagonal are.
fn known_in(a: usize, closed: bool) -> usize
    ensures { result ≡ cond closed a 0 }
{
    if closed { a } else { 0 }
}

// The entries of row a that are known, from column a. (By index: it reads and writes one room.)
#[tactic(auto, using(crate::proofs::PlaceLaws::square_small, crate::proofs::PlaceLaws::row_fits))]
fn copy_known(room: &mut [f64], t: usize, a: usize, known: usize)
    requires t_le_candidate_limit { (t ≤ candidate_limit) × ((a < t) × (known ≤ a)) }
    requires t_bound { t * t ≤ length room.old }
    ensures { let before = room.old in room.new ≡ paste before (a * t) (listed (λ b. distance_at before t b a) t 0) known }
{
    let at = a * t;
    for b in 0..known {
        room[at + b] = room[b * t + a];
    }
}

// The row of candidate a: the way from it to each of the t candidates, worked out where it is not known. (By index: three lists go
// along, and the owners may be fewer.)
fn fill_row(
    room: &mut [f64],
    items: [Candidate; CANDIDATES],
    t: usize,
    owner: &[u8],
    a: usize,
    known: usize,
)
    requires t_le_candidate_limit { (t ≤ candidate_limit) × (a < t) }
    requires t_bound { t ≤ length room.old }
    requires known_le_t { (known ≤ t) × (take known room.old ≡ listed (leg_at (take t items) owner.now a) known 0) }
    ensures { room.new ≡ row_of (take t items) owner.now t a ++ drop t room.old }
{
    let from = items[a];
    let k = byte_at(owner, a);
    for b in known..t {
        room[b] = leg(from, k, items[b], byte_at(owner, b));
    }
}

// The distances of the first t candidates, row by row, with the contour of each: each is worked out once and stands in both its
// entries, up to the first candidate whose cut ends elsewhere than it begins. Nothing is written where the room is too small, or where
// t is more than there are places: this promise, `tabled`, is why t stands beside the array, where a slice could not be asked.
#[tactic(auto, using(crate::proofs::PlaceLaws::square_small, crate::proofs::PlaceLaws::row_fits))]
pub fn fill_table(room: &mut [f64], items: [Candidate; CANDIDATES], t: usize, owner: &[u8])
    ensures { room.new ≡ tabled items t owner.now room.old }
{
    if t > CANDIDATES || room.len() < t * t {
        return;
    }
    let mut closed = true;
    for a in 0..t {
        closed &= is_closed(items[a]);
        let known = known_in(a, closed);
        copy_known(room, t, a, known);
        fill_row(&mut room[a * t..], items, t, owner, a, known);
    }
}

// How far each of the first t candidates is from home. Nothing is written where the room is too small.
pub fn fill_home(room: &mut [f64], items: [Candidate; CANDIDATES], t: usize, home: Point)
    ensures { room.new ≡ homed items t home room.old }
{
    if t > CANDIDATES || room.len() < t {
        return;
    }
    for (a, to) in items[..t].iter().enumerate() {
        room[a] = points::distance(home, Point { x: to.x, y: to.y });
    }
}
