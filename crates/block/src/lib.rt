// Blocks of 512 bytes, the form that cards and stores share: numbers in a slice of bytes, the lowest byte first,
// how a block starts, its check, and runs of zeros. Every question is answered on any bytes and at any place: a byte past the
// end reads 0.
#![tactic(auto)]

ghost use Rattle.std.specs.Prelude.{◌≡◌, ◌+◌, ◌≤◌, ◌<◌, length, take, drop, get_or, ℕ};
ghost use Rattle.std.specs.Float.{binary64};
ghost use Rattle.std.specs.Float.Ieee.{of_bits};
ghost use Rattle.block.specs.Field.{byte_at, u16_at, u32_at, u64_at, f64_at};
ghost use Rattle.block.specs.Block.{weigh, check_at, checked, starts, zeros_at, check_offset};

use std::array;

// How many bytes a block has.
pub const BLOCK: usize = 512;

// Where a block's check stands, and so how many bytes it covers.
pub const CHECK: usize = 508;

// The byte at a place.
pub fn byte_at(s: &[u8], at: usize) -> u8
    ensures { result ≡ byte_at s.now at }
{
    s.get(at).copied().unwrap_or(0)
}

// The N bytes at a place. Where all of them stand in the slice, the compiler makes one load of them.
fn bytes_at<const N: usize>(s: &[u8], at: usize) -> [u8; N]
    ensures { (i : ℕ) → i < N → get_or result i 0 ≡ byte_at s.now (at + i) }
{
    let rest = &s[at.min(s.len())..];
    if let Some((all, _)) = rest.split_first_chunk() {
        return *all;
    }
    array::from_fn(|i| byte_at(rest, i))
}

// Two bytes at a place.
pub fn u16_at(s: &[u8], at: usize) -> u16
    ensures { result ≡ u16_at s.now at }
{
    u16::from_le_bytes(bytes_at(s, at))
}

// Four bytes at a place.
pub fn u32_at(s: &[u8], at: usize) -> u32
    ensures { result ≡ u32_at s.now at }
{
    u32::from_le_bytes(bytes_at(s, at))
}

// Eight bytes at a place.
pub fn u64_at(s: &[u8], at: usize) -> u64
    ensures { result ≡ u64_at s.now at }
{
    u64::from_le_bytes(bytes_at(s, at))
}

// The number that eight bytes are the bits of.
pub fn f64_at(s: &[u8], at: usize) -> f64
    ensures { result ≡ f64_at s.now at }
{
    number(u64_at(s, at))
}

// The number of these bits. `f64::from_bits` asks that they are no NaN's, so those are told apart first: there is one NaN here.
fn number(bits: u64) -> f64
    ensures { result ≡ of_bits binary64 bits }
{
    if 0x7ff0_0000_0000_0000 < bits % 0x8000_0000_0000_0000 {
        return f64::NAN;
    }
    f64::from_bits(bits)
}

// Whether a block starts as is due.
pub fn starts_as(s: &[u8], at: usize, kind: u8, version: u8, number: usize) -> bool
    ensures { result ≡ starts s.now at kind version number }
{
    if s.len() <= at {
        return kind == 0 && version == 0 && number == 0;
    }
    byte_at(s, at) == kind
        && byte_at(s, at + 1) == version
        && usize::from(u16_at(s, at + 2)) == number
        && u32_at(s, at + 4) == 0
}

// The weighted sum of at most 508 bytes.
fn weighed(t: &[u8]) -> u32
    requires { length t.now ≤ check_offset }
    ensures { result ≡ weigh 1 t.now }
{
    let mut sum: u32 = 0;
    for (p, &x) in t.iter().enumerate() {
        sum += (p as u32 + 1) * u32::from(x);
    }
    sum
}

// So many bytes from a place on, or what is left of them.
fn part(s: &[u8], at: usize, count: usize) -> &[u8]
    ensures { result.now ≡ take count (drop at s.now) }
{
    let rest = &s[at.min(s.len())..];
    &rest[..count.min(rest.len())]
}

// The check of the block that begins at a place.
pub fn check_at(s: &[u8], at: usize) -> u32
    ensures { result ≡ check_at s.now at }
{
    weighed(part(s, at, CHECK))
}

// Whether a block's check is the one written in it.
pub fn is_checked(s: &[u8], at: usize) -> bool
    ensures { result ≡ checked s.now at }
{
    s.len() <= at || check_at(s, at) == u32_at(s, at + CHECK)
}

// Whether the count bytes from a place on are all 0.
pub fn zeros_at(s: &[u8], at: usize, count: usize) -> bool
    ensures { result ≡ zeros_at s.now at count }
{
    part(s, at, count).iter().all(|&x| x == 0)
}
