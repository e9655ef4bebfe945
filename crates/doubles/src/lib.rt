// The tests of a double that Rust has as methods, from comparisons, and the limits of 01.
#![tactic(auto)]

ghost use Rattle.std.specs.Prelude.{◌≡◌};
ghost use Rattle.std.specs.Float.Ieee.{lt, is_nan};
ghost use Rattle.doubles.specs.Num.{finite, infinite, larger, size, eps, +inf};

// 01: "EPS is the double nearest 1e-8".
pub const EPS: f64 = 1e-8;

// 02: "every finite cost, coefficient, right side or bound whose size is above 1e12" is refused.
pub const MAX_NUMBER: f64 = 1e12;

// The limits of 01. specs/Limits.antt has the same names for the definitions.
pub const MAX_COLUMNS: usize = 128;

pub const MAX_ROWS: usize = 96;

pub const MAX_ENTRIES: usize = 2048;

pub const MAX_TRI_ENTRIES: usize = 4560;

pub const MAX_BUDGET: usize = 10000;

pub const ETA_COLUMNS: usize = 256;

pub const ETA_ENTRIES: usize = 4096;

pub const PLACES: usize = 128;

// The columns and the slacks.
pub const VARS: usize = MAX_COLUMNS + MAX_ROWS;

pub const COUNT_CELLS: usize = 7;

// The audit sheet's, in size.
pub const MAX_COEFFICIENT: u64 = 4096;

pub const MAX_COST: u64 = 1048576;

pub const MAX_RIGHT_SIDE: u64 = 2147483648;

pub const MAX_BOUND: u64 = 65536;

pub const MAX_AMOUNT: u64 = 65536;

pub const MAX_MULTIPLIER: u64 = 1048576;

pub const MAX_R: u64 = 34359738368;

pub const MAX_D: u64 = 549755813888;

pub const MAX_C: u64 = 8796093022208;

pub const MAX_B: u64 = 4611686018427387904;

// A multiplier is a whole number of 1/1024.
pub const UNIT: i64 = 1024;

// A constant that is an infinity is refused, so it is a function.
pub fn infinity() -> f64
    ensures { result ≡ +inf }
{
    1.0 / 0.0
}

pub fn is_nan(x: f64) -> bool
    ensures { result ≡ is_nan x }
{
    x != x
}

pub fn is_finite(x: f64) -> bool
    ensures { result ≡ finite x }
{
    if -infinity() < x {
        x < infinity()
    } else {
        false
    }
}

pub fn is_infinite(x: f64) -> bool
    ensures { result ≡ infinite x }
{
    if x == infinity() {
        true
    } else {
        x == -infinity()
    }
}

// The larger of two numbers; x where neither is.
fn larger(x: f64, y: f64) -> f64
    ensures { result ≡ larger x y }
{
    if x < y { y } else { x }
}

// The size of x: a negative number's sign is cleared, also that of -0.0. A NaN stays. Signs follow no pattern, so a branch
// on them would be guessed wrong half the time; the larger of two numbers needs none.
pub fn abs(x: f64) -> f64
    ensures { result ≡ size x }
{
    let y = larger(x, -x);
    if x == 0.0 { 0.0 } else { y }
}

// 01: "coefficients under EPS in size are skipped".
pub fn under_eps(x: f64) -> bool
    ensures { result ≡ lt (size x) eps }
{
    abs(x) < EPS
}
