// The square root of IEEE 754, worked out from the number's bits: correctly rounded, the same bits everywhere.
// A guess from a table gives the first 27 digits of the significand's root and is tested by squares; one exact division gives 27 more.
// Where the test fails, which no input has been seen to do, the library's `isqrt` finds the digits.
#![tactic(auto)]

mod rows;

ghost use Rattle.std.specs.Prelude.{◌≡◌, false, ◌+◌, ◌*◌, ◌/◌, ◌^◌, ◌≤◌, ◌<◌};
ghost use Rattle.std.specs.Float.{binary64};
ghost use Rattle.std.specs.Float.Ieee.{of_bits, round};
ghost use Rattle.root.specs.Whole.{whole_root, halves};
ghost use Rattle.root.specs.Root.{sqrt_of, root_of};

use answer::{Fault, Refusal};

// As many 2^24th parts of a number.
fn share(parts: u64, of: u64) -> u64
    requires { (parts ≤ 2 ^ 24) × (of < 2 ^ 23) }
    ensures { result ≤ of }
{
    parts * of / 0x100_0000
}

// Where the root of a significand is looked for: f has the 52 digits below the leading one, and odd is 1 where the number is
// twice that. What it answers is tested by its caller, so all that is promised is its size.
fn guess(f: u64, odd: u64) -> u64
    requires { (f < 2 ^ 52) × (odd < 2) }
    ensures { (0 < result) × (result < 2 ^ 28) }
{
    let row = rows::ROWS[(f / 0x2000_0000_0000 + odd * 128) as usize];
    let along = f / 0x20_0000 % 0x100_0000;
    let bow = share(0x100_0000 - along, row % 0x2000);
    let rise = share(along, row / 0x2000 % 0x40_0000 + bow);
    0x400_0000 + (row / 0x8_0000_0000 + rise) / 8
}

// One less where the square is above m: the guess is never too small, and at most one too large.
fn lowered(m: u64, g: u64) -> u64
    requires { (0 < g) × (g < 2 ^ 28) }
    ensures { result < 2 ^ 28 }
{
    if m < g * g { g - 1 } else { g }
}

// The whole part of m's root, by a guess that is tested.
fn whole_root(m: u64, g: u64) -> u64
    requires { (m < 2 ^ 54) × ((0 < g) × (g < 2 ^ 28)) }
    ensures { result ≡ whole_root m }
{
    let a = lowered(m, g);
    let square = a * a;
    if square <= m && m - square <= 2 * a {
        a
    } else {
        m.isqrt()
    }
}

// The root of m * 2^54, given the root a of m: one division finds the 27 digits more, and at most one must be taken back.
fn longer(m: u64, a: u64) -> u64
    requires { (2 ^ 52 ≤ m) × ((m < 2 ^ 54) × (a ≡ whole_root m)) }
    ensures { result ≡ whole_root (m * 2 ^ 54) }
{
    let rest = (m - a * a) * 0x800_0000;
    let twice = 2 * a;
    let q = rest / twice;
    let s = a * 0x800_0000 + q;
    if rest % twice * 0x800_0000 < q * q {
        s - 1
    } else {
        s
    }
}

// The bits of the root of (2^52 + f) * 2^(w - 2148), a number whose 53 digits f and the leading one are.
fn root_bits(f: u64, w: u64) -> u64
    requires { (f < 2 ^ 52) × ((54 ≤ w) × (w < 4000)) }
    ensures { (result < 2047 * 2 ^ 52) × (of_bits binary64 result ≡ round binary64 false (halves ((2 ^ 52 + f) * 2 ^ w)) (2 ^ 1075)) }
{
    let m = (0x10_0000_0000_0000 + f) * (1 + w % 2);
    let s = longer(m, whole_root(m, guess(f, w % 2)));
    (w - 50) / 2 * 0x10_0000_0000_0000 + (s / 2 + s % 2 - 0x10_0000_0000_0000)
}

// The bits of the root of g * 2^-1074, a number below the normal ones: g's leading digit is moved up to its place first.
fn small_root_bits(g: u64) -> u64
    requires { (0 < g) × (g < 2 ^ 52) }
    ensures { (result < 2047 * 2 ^ 52) × (of_bits binary64 result ≡ round binary64 false (halves (g * 2 ^ 1074)) (2 ^ 1075)) }
{
    let up = 52 - g.ilog2();
    root_bits((g << up) - 0x10_0000_0000_0000, 1074 - u64::from(up))
}

// The root of x, whose bits b are those of no normal number above zero.
fn seldom(x: f64, b: u64) -> f64
    requires { (x ≡ of_bits binary64 b) × ((b < 2 ^ 64) × (2 ^ 52 ≤ b → 2047 * 2 ^ 52 ≤ b)) }
    ensures { result ≡ sqrt_of x }
{
    match b {
        0 | 0x7ff0_0000_0000_0000 | 0x8000_0000_0000_0000 => x,
        1..0x10_0000_0000_0000 => f64::from_bits(small_root_bits(b)),
        _ => 0.0 / 0.0,
    }
}

// The root of x, rounded once: not a number below zero and for what is not a number, infinity of infinity, -0 of -0.
pub fn sqrt(x: f64) -> f64
    ensures { result ≡ sqrt_of x }
{
    if x.is_nan() {
        return x;
    }
    let b = x.to_bits();
    let e = b / 0x10_0000_0000_0000;
    if e == 0 || 2047 <= e {
        return seldom(x, b);
    }
    f64::from_bits(root_bits(b % 0x10_0000_0000_0000, e + 1073))
}

// The root of x for whoever asks: refused with 14 at 0 where x is not a number, infinite or below zero.
pub fn root(x: f64) -> Result<f64, Refusal>
    ensures { result ≡ root_of x }
{
    if x != x {
        return Err(Fault::Amount.at(0));
    }
    let b = f64::to_bits(x);
    if b < 0x7ff0_0000_0000_0000 {
        return Ok(sqrt(x));
    }
    if b == 0x8000_0000_0000_0000 {
        return Ok(x);
    }
    Err(Fault::Amount.at(0))
}
