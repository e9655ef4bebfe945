// Doubles to whole numbers: nearest, a tie to the even one (02, Ask 3).
#![tactic(auto)]

ghost use Rattle.std.specs.Prelude.{◌≡◌, ◌^◌, ◌<◌, false, T, pos};
ghost use Rattle.std.specs.Float.{fin};
ghost use Rattle.std.specs.Float.Ieee.{lt};
ghost use Rattle.doubles.specs.Num.{size};
ghost use Rattle.whole_round.specs.Whole.{Nearby, round_even, amount_of, right_sign, multiplier_of, is_whole, number_of};

// 02: "Whole, or Beyond with the double that wouldn't fit the sheet's limit, or NotANumber".
#[derive(Clone, Copy)]
pub enum Rounded {
    Whole(i64),
    Beyond(f64),
    NotANumber,
}

// 2^63, past every i64.
const PAST: f64 = 9223372036854775808.0;

// 2^52: from here on a double has no fraction, so the machine rounds a sum that reaches it to a whole number.
const NO_FRACTION: f64 = 4503599627370496.0;

// The whole number nearest to a, for a from 0 up and below 2^63.
fn nearest(a: f64) -> u64
    requires { (a ≡ size a) × T (lt a (fin false 1 (pos 63))) }
    ensures { Nearby a result }
{
    if a < NO_FRACTION {
        return ((a + NO_FRACTION) - NO_FRACTION) as u64;
    }
    std::num::truncating_f64_to_u64(a)
}

// The whole number nearest to x, if its size is within the limit. What each answer promises is `Rounds` in
// specs/Whole.antt.
pub fn round_even(x: f64, limit: i64) -> Rounded
    ensures { result ≡ round_even limit x }
{
    if x != x {
        return Rounded::NotANumber;
    }
    let a = doubles::abs(x);
    if a < PAST {
        let n = nearest(a) as i64;
        if limit < n {
            return Rounded::Beyond(x);
        }
        if x < 0.0 {
            return Rounded::Whole(0 - n);
        }
        return Rounded::Whole(n);
    }
    Rounded::Beyond(x)
}

// An amount of the sheet.
pub fn amount(x: f64) -> Rounded
    ensures { result ≡ amount_of x }
{
    round_even(x, doubles::MAX_AMOUNT as i64)
}

// 02: "then moved to 0 where the sign is wrong".
fn right_sign(op: u8, r: Rounded) -> Rounded
    ensures { result ≡ right_sign op r }
{
    match r {
        Rounded::Whole(w) => {
            if sheet_terms::wrong(op, w) {
                return Rounded::Whole(0);
            }
            Rounded::Whole(w)
        }
        Rounded::Beyond(x) => Rounded::Beyond(x),
        Rounded::NotANumber => Rounded::NotANumber,
    }
}

// A multiplier of the sheet, for a row with the comparison op: minus the price times 1024, which is exact unless it
// overflows. What each answer promises is `Multiplies`.
pub fn multiplier(op: u8, price: f64) -> Rounded
    ensures { result ≡ multiplier_of op price }
{
    let r = round_even(price * -1024.0, doubles::MAX_MULTIPLIER as i64);
    right_sign(op, r)
}

pub fn is_whole(r: Rounded) -> bool
    ensures { result ≡ is_whole r }
{
    match r {
        Rounded::Whole(_) => true,
        Rounded::Beyond(_) => false,
        Rounded::NotANumber => false,
    }
}

// The whole number, 0 where there is none.
pub fn number_of(r: Rounded) -> i64
    ensures { result ≡ number_of r }
{
    match r {
        Rounded::Whole(w) => w,
        Rounded::Beyond(_) => 0,
        Rounded::NotANumber => 0,
    }
}
