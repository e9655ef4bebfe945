// 01, "When the gateway says no": refusal 2, for which each number of the plan is tested by itself.
#![tactic(auto)]

ghost use Rattle.std.specs.Prelude.{◌≡◌, ◌≤◌, length};
ghost use Rattle.doubles.specs.Num.{finite};
ghost use Rattle.doubles.specs.Loop.{all};
ghost use Rattle.doubles.specs.Lists.{◌!◌, ◌#◌};
ghost use Rattle.rules.specs.Refusals.{is_number, is_lower, is_upper, is_tolerance, is_op, passes2};
ghost use Rattle.plan_numbers.specs.Lent.{numbers_of, Numbers};

// 2: "NaN anywhere in the plan; an infinite cost, coefficient or right side", and one above 1e12 in size. Of a NaN the
// comparison is false.
fn is_number(x: f64) -> bool
    ensures { result ≡ is_number x }
{
    doubles::abs(x) <= doubles::MAX_NUMBER
}

// "lower bound +inf"
fn is_lower(x: f64) -> bool
    ensures { result ≡ is_lower x }
{
    (x == -doubles::infinity()) | is_number(x)
}

// "upper -inf"
fn is_upper(x: f64) -> bool
    ensures { result ≡ is_upper x }
{
    (x == doubles::infinity()) | is_number(x)
}

// "tolerance outside 0 to 1"
fn is_tolerance(x: f64) -> bool
    ensures { result ≡ is_tolerance x }
{
    (0.0 <= x) & (x <= 1.0)
}

// "a comparison above 2"
fn is_op(op: u8) -> bool
    ensures { result ≡ is_op op }
{
    op <= 2
}

// What the start reckons is finite: 6 asks it of values, slacks and norms.
pub fn all_finite(n: usize, xs: &[f64]) -> bool
    requires { n ≤ length xs.now }
    ensures { result ≡ all n (λ k. finite (xs.now ! k)) }
{
    xs[..n].iter().all(|&x| doubles::is_finite(x))
}

fn all_numbers(n: usize, xs: &[f64]) -> bool
    requires { n ≤ length xs.now }
    ensures { result ≡ all n (λ k. is_number (xs.now ! k)) }
{
    xs[..n].iter().all(|&x| is_number(x))
}

fn all_lowers(n: usize, xs: &[f64]) -> bool
    requires { n ≤ length xs.now }
    ensures { result ≡ all n (λ k. is_lower (xs.now ! k)) }
{
    xs[..n].iter().all(|&x| is_lower(x))
}

fn all_uppers(n: usize, xs: &[f64]) -> bool
    requires { n ≤ length xs.now }
    ensures { result ≡ all n (λ k. is_upper (xs.now ! k)) }
{
    xs[..n].iter().all(|&x| is_upper(x))
}

fn all_ops(n: usize, ops: &[u8]) -> bool
    requires { n ≤ length ops.now }
    ensures { result ≡ all n (λ k. is_op (ops.now # k)) }
{
    ops[..n].iter().all(|&op| is_op(op))
}

// `&`, not `&&`: a plan that passes asks every test.
pub fn passes_2(
    columns: usize,
    rows: usize,
    entries: usize,
    tolerance: f64,
    costs: &[f64],
    lowers: &[f64],
    uppers: &[f64],
    coeffs: &[f64],
    ops: &[u8],
    rhs: &[f64],
) -> bool
    requires { Numbers (numbers_of columns rows entries tolerance costs.now lowers.now uppers.now coeffs.now
        ops.now rhs.now) }
    ensures { result ≡ passes2 (numbers_of columns rows entries tolerance costs.now lowers.now
        uppers.now coeffs.now ops.now rhs.now) }
{
    all_numbers(columns, costs)
        & all_lowers(columns, lowers)
        & all_uppers(columns, uppers)
        & all_numbers(entries, coeffs)
        & all_ops(rows, ops)
        & all_numbers(rows, rhs)
        & is_tolerance(tolerance)
}
