// Where pairs of positions lead: one flag for each ordered pair of contours, closed under
// reachability, and the lowest position on a cycle read off the diagonal.
#![tactic(auto)]

ghost use Rattle.std.specs.Prelude.{[], ◌∷◌, ◌≡◌, List, ℕ, ◌<◌, ◌≤◌, map};
ghost use Rattle.answer.specs.Lowest.{lowest};
ghost use Rattle.closure.specs.Limits.{contour_limit};
ghost use Rattle.closure.specs.Pairs.{paired, pair_of};
ghost use Rattle.closure.specs.Cycle.{leads, first_on_cycle};
ghost use Rattle.closure.specs.Flags.{flag, Whole, RowJoined, RowsJoined, Noted, Says};

// The most contours that a question on pairs takes.
pub const CONTOURS: usize = 80;

// The most pairs that it takes.
pub const PAIRS: usize = 248;

// Where i leads to k, all that k leads to is added to what i leads to: from a copy of that row, which the compiler can tell
// from the one that is written, so that it adds many flags at once.
fn join_row(flags: &mut [[bool; CONTOURS]; CONTOURS], n: usize, k: usize, i: usize)
    requires { (n ≤ contour_limit) × (k < n) × (i < n) × Whole flags.old }
    ensures { RowJoined n k i flags.old flags.new }
{
    if flags[i][k] {
        let row = flags[k];
        for j in 0..n {
            flags[i][j] |= row[j];
        }
    }
}

// The same for every row: what i reaches by way of k is added for each i.
fn join_rows(flags: &mut [[bool; CONTOURS]; CONTOURS], n: usize, k: usize)
    requires { (n ≤ contour_limit) × (k < n) × Whole flags.old }
    ensures { RowsJoined n k flags.old flags.new }
{
    for i in 0..n {
        join_row(flags, n, k, i);
    }
}

// The flags closed under reachability: yes exactly where links lead from one to the other.
fn close(flags: &mut [[bool; CONTOURS]; CONTOURS], n: usize)
    requires { (n ≤ contour_limit) × Whole flags.old }
    ensures { Says n (leads (flag flags.old) n) flags.new }
{
    for k in 0..n {
        join_rows(flags, n, k);
    }
}

// The lowest position whose flag for itself is set.
fn on_diagonal(flags: &[[bool; CONTOURS]; CONTOURS], n: usize) -> Option<usize>
    requires { n ≤ contour_limit }
    ensures { result ≡ lowest (λ i. flag flags.now i i) n }
{
    (0..n).find(|&k| flags[k][k])
}

// A number that says a position: the lists of pairs hold bytes or numbers of 32 bits.
trait Position: Copy {
    ghost place: { Self → ℕ };

    fn place(self) -> usize
        ensures { result ≡ place self };
}

impl Position for u8 {
    ghost place = { λ x. x };

    fn place(self) -> usize {
        self as usize
    }
}

impl Position for u32 {
    ghost place = { λ x. x };

    fn place(self) -> usize {
        self as usize
    }
}

// The flag of one pair, where its two positions are below n.
fn note<P: Position>(pair: &[P; 2], n: usize, flags: &mut [[bool; CONTOURS]; CONTOURS])
    requires { (n ≤ contour_limit) × Whole flags.old }
    ensures { Noted n (pair_of (map P.place pair.now) ∷ []) flags.old flags.new }
{
    let b = pair[0].place();
    let a = pair[1].place();
    if b < n && a < n {
        flags[b][a] = true;
    }
}

// The lowest position that pairs of positions lead back to, of as many contours as there are flags for.
fn lowest_on_cycle<P: Position>(contours: usize, pairs: &[[P; 2]]) -> Option<usize>
    ensures { (flat : List ℕ) → paired flat ≡ map (λ p. pair_of (map P.place p)) pairs.now → result ≡ first_on_cycle contours flat }
{
    let n = contours.min(CONTOURS);
    let mut flags = [[false; CONTOURS]; CONTOURS];
    for pair in pairs {
        note(pair, n, &mut flags);
    }
    close(&mut flags, n);
    on_diagonal(&flags, n)
}

// The lowest position that pairs of positions lead back to. (Two public functions over the generic one: `as_chunks` asks for a
// bound on the size of a number, and none is known of P; and crates/contracts cites contracts of plain numbers.)
pub fn first_on_cycle(contours: usize, pairs: &[u8]) -> Option<usize>
    ensures { result ≡ first_on_cycle contours pairs.now }
{
    lowest_on_cycle(contours, pairs.as_chunks::<2>().0)
}

// The same question on numbers of 32 bits.
pub fn first_on_cycle_wide(contours: usize, pairs: &[u32]) -> Option<usize>
    ensures { result ≡ first_on_cycle contours pairs.now }
{
    lowest_on_cycle(contours, pairs.as_chunks::<2>().0)
}
