// The factor that a call finds in the memory. docs/RULES-02.md, Ask 9: "The transposes aren't looked at: a call makes
// them anew from L and U". Past them no cell changes.
#![tactic(auto)]

ghost use Rattle.std.specs.Prelude.{◌≡◌, true, not, ◌||◌, ◌≤◌, length};
ghost use Rattle.doubles.specs.Limits.{max_rows};
ghost use Rattle.lu_factor_rules.specs.Factor.{matrix};
ghost use Rattle.lu_factor_rules.specs.Packed.{all_factor_numbers, all_factor_coeffs};
ghost use Rattle.rules.specs.Parts.{factored_of};
ghost use Rattle.fix_rules.specs.Kept.{factor_fine, kept_by};

// The three arrays of a matrix, copied.
fn copy_matrix(
    s: &[usize],
    r: &[usize],
    v: &[f64],
    starts: &mut [usize],
    rows: &mut [usize],
    vals: &mut [f64],
)
    requires { (length s.now ≡ length starts.old) × (length r.now ≡ length rows.old) ×
        (length v.now ≡ length vals.old) }
    ensures { matrix starts.new rows.new vals.new
        ≡ matrix s.now r.now v.now }
{
    starts.copy_from_slice(s);
    rows.copy_from_slice(r);
    vals.copy_from_slice(v);
}

// The transposes of L and U over whatever stands at their places.
fn renew(m: usize, factor_numbers: &mut [usize], factor_coeffs: &mut [f64])
    requires { (m ≤ max_rows) × (all_factor_numbers ≤ length factor_numbers.old) ×
        (all_factor_coeffs ≤ length factor_coeffs.old) ×
        (factor_fine m factor_numbers.old factor_coeffs.old ≡ true) }
    ensures { factored_of true 0 factor_numbers.new factor_coeffs.new
        ≡ kept_by true m factor_numbers.old factor_coeffs.old }
{
    let mut lstarts = [0usize; doubles::MAX_ROWS + 1];
    let mut lrows = [0usize; doubles::MAX_TRI_ENTRIES];
    let mut lvals = [0.0; doubles::MAX_TRI_ENTRIES];
    copy_matrix(
        &factor_numbers[lu_factor_rules::L_STARTS..lu_factor_rules::L_STARTS_END],
        &factor_numbers[lu_factor_rules::L_ROWS..lu_factor_rules::L_ROWS_END],
        &factor_coeffs[lu_factor_rules::L_COEFFS..lu_factor_rules::L_COEFFS_END],
        &mut lstarts,
        &mut lrows,
        &mut lvals,
    );
    let mut ustarts = [0usize; doubles::MAX_ROWS + 1];
    let mut urows = [0usize; doubles::MAX_TRI_ENTRIES];
    let mut uvals = [0.0; doubles::MAX_TRI_ENTRIES];
    copy_matrix(
        &factor_numbers[lu_factor_rules::U_STARTS..lu_factor_rules::U_STARTS_END],
        &factor_numbers[lu_factor_rules::U_ROWS..lu_factor_rules::U_ROWS_END],
        &factor_coeffs[lu_factor_rules::U_COEFFS..lu_factor_rules::U_COEFFS_END],
        &mut ustarts,
        &mut urows,
        &mut uvals,
    );
    lu_packed::put_transpose(
        m,
        &lstarts,
        &lrows,
        &lvals,
        lu_factor_rules::LT_STARTS,
        lu_factor_rules::LT_ROWS,
        lu_factor_rules::LT_COEFFS,
        factor_numbers,
        factor_coeffs,
    );
    lu_packed::put_transpose(
        m,
        &ustarts,
        &urows,
        &uvals,
        lu_factor_rules::UT_STARTS,
        lu_factor_rules::UT_ROWS,
        lu_factor_rules::UT_COEFFS,
        factor_numbers,
        factor_coeffs,
    );
}

// Where there is a factor; else nothing changes.
pub fn kept_factor(
    factored: bool,
    m: usize,
    factor_numbers: &mut [usize],
    factor_coeffs: &mut [f64],
)
    requires { (m ≤ max_rows) × (all_factor_numbers ≤ length factor_numbers.old) ×
        (all_factor_coeffs ≤ length factor_coeffs.old) ×
        (not factored || factor_fine m factor_numbers.old factor_coeffs.old ≡ true) }
    ensures { factored_of factored 0 factor_numbers.new factor_coeffs.new
        ≡ kept_by factored m factor_numbers.old factor_coeffs.old }
{
    if factored {
        renew(m, factor_numbers, factor_coeffs);
    }
}
