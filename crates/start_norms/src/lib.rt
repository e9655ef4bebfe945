// 01, "Start": the columns' norms.
// From minilp 0.2.2, src/solver.rs, try_new, Apache-2.0, changed: reckoned for every plan, row by row, lent arrays.
#![tactic(auto)]

ghost use Rattle.std.specs.Prelude.{◌≡◌, ◌≤◌, length};
ghost use Rattle.doubles.specs.Num.{f0, f1, ◌⊕◌};
ghost use Rattle.doubles.specs.Limits.{max_columns};
ghost use Rattle.doubles.specs.Loop.{table};
ghost use Rattle.doubles.specs.Lists.{◌!◌, over};
ghost use Rattle.sparse.specs.Scattered.{Within};
ghost use Rattle.rules.specs.Parts.{rowed};
ghost use Rattle.rules.specs.Start.{start_norm};
ghost use Rattle.plan.specs.Kept.{RowsRead};
ghost use Rattle.start_norms.specs.Squares.{add_squares, squares};

fn clear_norms(n: usize, norms: &mut [f64; doubles::MAX_COLUMNS])
    requires { (n ≤ max_columns) × (n ≤ length norms.old) }
    ensures { norms.new ≡ over (table n (λ _. f0)) norms.old }
{
    norms[..n].fill(0.0);
}

// A row's squares, each added at its column.
fn add_squares(cols: &[usize], coeffs: &[f64], norms: &mut [f64; doubles::MAX_COLUMNS])
    requires { (length cols.now ≤ length coeffs.now) × Within max_columns (length cols.now) cols.now }
    ensures { norms.new ≡ add_squares cols.now coeffs.now norms.old }
{
    for (k, &j) in cols.iter().enumerate() {
        norms[j] = norms[j] + coeffs[k] * coeffs[k];
    }
}

// Those of all kept rows. A column's entries come with their rows rising.
fn sum_squares(
    starts: &[usize],
    cols: &[usize],
    coeffs: &[f64],
    kept: &[usize],
    norms: &mut [f64; doubles::MAX_COLUMNS],
)
    requires { RowsRead (rowed 0 starts.now cols.now coeffs.now kept.now) max_columns }
    ensures { norms.new ≡ squares (rowed 0 starts.now cols.now
        coeffs.now kept.now) norms.old }
{
    for &i in kept {
        let row_cols = plan::row_cols(starts, cols, i);
        let row_coeffs = plan::row_coeffs(starts, coeffs, i);
        add_squares(row_cols, row_coeffs, norms);
    }
}

fn add_ones(n: usize, norms: &mut [f64; doubles::MAX_COLUMNS])
    requires { (n ≤ max_columns) × (n ≤ length norms.old) }
    ensures { norms.new ≡ over (table n (λ j. norms.old ! j ⊕ f1)) norms.old }
{
    for j in 0..n {
        norms[j] = norms[j] + 1.0;
    }
}

// 01: "A norm, reckoned for every plan, is 1.0 added to the column's sum of squares". Over the front of the scratch.
pub fn start_norms(
    n: usize,
    starts: &[usize],
    cols: &[usize],
    coeffs: &[f64],
    kept: &[usize],
    norms: &mut [f64; doubles::MAX_COLUMNS],
)
    requires { (n ≤ max_columns) × (n ≤ length norms.old) × RowsRead
        (rowed 0 starts.now cols.now coeffs.now kept.now) n }
    ensures { norms.new ≡ over (table n
        (start_norm (rowed n starts.now cols.now coeffs.now kept.now)))
        norms.old }
{
    clear_norms(n, norms);
    sum_squares(starts, cols, coeffs, kept, norms);
    add_ones(n, norms);
}
