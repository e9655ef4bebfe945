// 01, "Start": the numbers of the first state, reckoned in scratch, and refusals 6 and 7, which are tested there.
// From minilp 0.2.2, src/solver.rs, try_new, Apache-2.0, changed: 01's rules, lent arrays.
#![tactic(auto)]

ghost use Rattle.std.specs.Prelude.{◌≡◌, ◌≤◌, length};
ghost use Rattle.doubles.specs.Num.{f0};
ghost use Rattle.doubles.specs.Limits.{max_rows};
ghost use Rattle.sparse.specs.Scattered.{Within};
ghost use Rattle.rules.specs.Plan.{slack_min, slack_max};
ghost use Rattle.rules.specs.Start.{in_bounds};
ghost use Rattle.start.specs.Lent.{unruled, Reckonable, Scratch};
ghost use Rattle.start.specs.Reckoned.{numbers, reckoned, all_finite, slacks_inside};

// Everything that the start reckons. Its objective is handed back.
pub fn reckon(
    n: usize,
    costs: &[f64],
    lowers: &[f64],
    uppers: &[f64],
    starts: &[usize],
    cols: &[usize],
    coeffs: &[f64],
    rhs: &[f64],
    kept: &[usize],
    xs: &mut [f64; doubles::MAX_COLUMNS],
    slacks: &mut [f64; doubles::MAX_ROWS],
    norms: &mut [f64; doubles::MAX_COLUMNS],
) -> f64
    requires reckonable { Reckonable (unruled n costs.now lowers.now uppers.now starts.now cols.now coeffs.now
        rhs.now kept.now) }
    requires scratch { Scratch n (length kept.now) xs.old slacks.old norms.old }
    ensures { numbers xs.new slacks.new norms.new result ≡ reckoned
        (unruled n costs.now lowers.now uppers.now starts.now
        cols.now coeffs.now rhs.now kept.now)
        (numbers xs.old slacks.old norms.old f0) }
{
    start_values::start_vals(costs, lowers, uppers, n, xs);
    start_values::start_slacks(starts, cols, coeffs, rhs, kept, xs, slacks);
    start_norms::start_norms(n, starts, cols, coeffs, kept, norms);
    start_values::start_objective(costs, n, xs)
}

// 6: "a start value, objective sum or start norm isn't finite". `&`, not `&&`: a plan that passes asks every test.
pub fn passes_6(
    n: usize,
    m: usize,
    xs: &[f64; doubles::MAX_COLUMNS],
    slacks: &[f64; doubles::MAX_ROWS],
    objective: f64,
    norms: &[f64; doubles::MAX_COLUMNS],
) -> bool
    requires { Scratch n m xs.now slacks.now norms.now }
    ensures { result ≡ all_finite n m xs.now slacks.now objective norms.now }
{
    plan_numbers::all_finite(n, xs)
        & plan_numbers::all_finite(m, slacks)
        & doubles::is_finite(objective)
        & plan_numbers::all_finite(n, norms)
}

fn in_bounds(op: u8, x: f64) -> bool
    ensures { result ≡ in_bounds (slack_min op) x (slack_max op) }
{
    (cells::slack_min(op) <= x) & (x <= cells::slack_max(op))
}

// 7: "a slack starts outside its bounds, no tolerance"
pub fn passes_7(ops: &[u8], kept: &[usize], slacks: &[f64; doubles::MAX_ROWS]) -> bool
    requires { (length kept.now ≤ max_rows) × Within (length ops.now) (length kept.now) kept.now }
    ensures { result ≡ slacks_inside ops.now kept.now slacks.now }
{
    for (r, &i) in kept.iter().enumerate() {
        if !in_bounds(ops[i], slacks[r]) {
            return false;
        }
    }
    true
}
