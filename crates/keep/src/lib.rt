// Whether an order of positions keeps to the pairs, and whether all that must come before a position has been visited: the two questions that
// the searches ask in every trial, on positions held as bytes.
#![tactic(auto)]

ghost use Rattle.std.specs.Prelude.{◌≡◌, ◌<◌, length, get_or};
ghost use Rattle.keep.specs.Keep.{kept_at, keeps_pairs, ready_by, ready_in};
ghost use Rattle.keep.specs.Code.{RanksOf};

// The last rank of every byte in the order, counted from 1; a byte that is not there keeps what it has.
fn note_ranks(order: &[u8], ranks: &mut [usize; 256])
    requires { length ranks.old ≡ 256 }
    ensures { RanksOf order.now ranks.old ranks.new }
{
    for (i, &x) in order.iter().enumerate() {
        ranks[x as usize] = i + 1;
    }
}

// Whether two last ranks keep a pair: either is not there, or the first comes before the second.
pub fn kept_at(b: usize, a: usize) -> bool
    ensures { result ≡ kept_at b a }
{
    a == 0 || b < a
}

// Whether an order of positions keeps to pairs of positions, going by last ranks.
pub fn keeps_pairs(order: &[u8], pairs: &[u8]) -> bool
    ensures { result ≡ keeps_pairs order.now pairs.now }
{
    let mut ranks = [0usize; 256];
    note_ranks(order, &mut ranks);
    pairs
        .as_chunks::<2>()
        .0
        .iter()
        .all(|&[b, a]| kept_at(ranks[b as usize], ranks[a as usize]))
}

// The flag at a position; 0 past the end.
fn flag_at(flags: &[u8], i: usize) -> u8
    ensures { result ≡ get_or flags.now i 0 }
{
    flags.get(i).copied().unwrap_or(0)
}

// Whether a pair leaves k ready: it is not about k, or its first has been visited.
fn ready_by(visited: &[u8], b: u8, a: u8, k: u8) -> bool
    ensures { result ≡ ready_by visited.now k (record { before = b; after = a }) }
{
    a != k || flag_at(visited, b as usize) != 0
}

// Whether whatever a pair puts before k has been visited.
pub fn is_ready(visited: &[u8], pairs: &[u8], k: u8) -> bool
    ensures { result ≡ ready_in visited.now pairs.now k }
{
    pairs
        .as_chunks::<2>()
        .0
        .iter()
        .all(|&[b, a]| ready_by(visited, b, a, k))
}
