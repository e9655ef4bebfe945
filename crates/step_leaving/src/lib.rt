// The choice of a dual step's leaving row.
// From minilp 0.2.2, src/solver.rs, choose_pivot_row_dual, Apache-2.0, changed: the bounds of a basic variable are
// looked up, and the row travels with its numbers.
#![tactic(auto)]

ghost use Rattle.std.specs.Prelude.{◌≡◌};
ghost use Rattle.rules.specs.Parts.{bounded};
ghost use Rattle.rules.specs.DualRow.{too_low, infeasibility_of, bound_broken, best_row, choose_row};
ghost use Rattle.rules.specs.DualRow as DualRow;
ghost use Rattle.step_leaving.specs.Lent.{rows_of, Leaving};
ghost use Rattle.step_leaving.specs.Parts.{row_of, better_row_of};

// Below the lower bound by more than EPS.
fn too_low(lower: f64, value: f64) -> bool
    ensures { result ≡ too_low lower value }
{
    value < lower - doubles::EPS
}

fn outside(lower: f64, value: f64, upper: f64) -> bool
    ensures { result ≡ DualRow.outside lower value upper }
{
    too_low(lower, value) | (upper + doubles::EPS < value)
}

// How far a value that is outside its bounds is outside.
fn infeasibility(lower: f64, value: f64, upper: f64) -> f64
    ensures { result ≡ infeasibility_of lower value upper }
{
    if too_low(lower, value) {
        return lower - value;
    }
    value - upper
}

// The value that the leaving variable is to take.
fn bound_broken(lower: f64, value: f64, upper: f64) -> f64
    ensures { result ≡ bound_broken lower value upper }
{
    if value < lower {
        return lower;
    }
    upper
}

// The best row so far and its score; `row` is the number of rows where there is none.
#[derive(Clone, Copy)]
pub struct Best {
    pub row: usize,
    pub score: f64,
}

// 02, Ask 8: "the leaving row has the largest squared infeasibility over dual norm, first on a tie".
fn better(r: usize, lower: f64, value: f64, upper: f64, norm: f64, best: Best) -> Best
    ensures { row_of result ≡ better_row_of r lower value upper norm (row_of best) }
{
    if outside(lower, value, upper) {
        let off = infeasibility(lower, value, upper);
        let score = off * off / norm;
        if best.score < score {
            return Best { row: r, score };
        }
        return best;
    }
    best
}

fn best_row(
    n: usize,
    lowers: &[f64],
    uppers: &[f64],
    ops: &[u8],
    kept: &[usize],
    basic_vars: &[usize],
    basic_var_vals: &[f64],
    dual_norms: &[f64],
) -> Best
    requires { Leaving (bounded n lowers.now uppers.now ops.now kept.now)
        (rows_of basic_vars.now basic_var_vals.now dual_norms.now) }
    ensures { row_of result ≡ best_row (bounded n lowers.now uppers.now ops.now
        kept.now) (rows_of basic_vars.now basic_var_vals.now
        dual_norms.now) }
{
    let m = kept.len();
    let mut best = Best {
        row: m,
        score: -doubles::infinity(),
    };
    for r in 0..m {
        let v = basic_vars[r];
        let lower = cells::var_min(n, lowers, ops, kept, v);
        let upper = cells::var_max(n, uppers, ops, kept, v);
        best = better(r, lower, basic_var_vals[r], upper, dual_norms[r], best);
    }
    best
}

// The row travels with its infeasibility and score, and with the bound that its variable broke.
pub fn choose_row(
    n: usize,
    lowers: &[f64],
    uppers: &[f64],
    ops: &[u8],
    kept: &[usize],
    basic_vars: &[usize],
    basic_var_vals: &[f64],
    dual_norms: &[f64],
) -> Option<rules::LeavingVar>
    requires { Leaving (bounded n lowers.now uppers.now ops.now kept.now)
        (rows_of basic_vars.now basic_var_vals.now dual_norms.now) }
    ensures { result ≡ choose_row (bounded n lowers.now uppers.now ops.now
        kept.now) (rows_of basic_vars.now basic_var_vals.now
        dual_norms.now) }
{
    let best = best_row(
        n,
        lowers,
        uppers,
        ops,
        kept,
        basic_vars,
        basic_var_vals,
        dual_norms,
    );
    let row = best.row;
    if row < kept.len() {
        let v = basic_vars[row];
        let lower = cells::var_min(n, lowers, ops, kept, v);
        let upper = cells::var_max(n, uppers, ops, kept, v);
        let value = basic_var_vals[row];
        let l = rules::LeavingVar {
            row,
            infeasibility: infeasibility(lower, value, upper),
            score: best.score,
            value: bound_broken(lower, value, upper),
        };
        return Some(l);
    }
    None
}
