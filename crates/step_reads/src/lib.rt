// What a step reads of the state: each function is lent both arrays to read and makes the sections that it needs. The
// solves are lent the factor's two arrays, whole.
#![tactic(auto)]

ghost use Rattle.std.specs.Prelude.{◌≡◌, Bool, List, [], ℕ, ◌<◌, ◌≤◌, length};
ghost use Rattle.doubles.specs.Num.{f1};
ghost use Rattle.doubles.specs.Limits.{max_rows, max_columns, places};
ghost use Rattle.doubles.specs.Lists.{◌#◌};
ghost use Rattle.sparse.specs.Scattered.{Pat, sv, sv_of, sq_norm, blank, put_at, Within, relisted, Fresh};
ghost use Rattle.rules.specs.Plan.{Problem, n_of, m_of};
ghost use Rattle.rules.specs.Parts.{bounded, rowed, factored_of};
ghost use Rattle.rules.specs.Choose as Choose;
ghost use Rattle.rules.specs.Ratio as Ratio;
ghost use Rattle.rules.specs.Basis.{column_coeffs, combine, inv_row, tau_of, helper_of};
ghost use Rattle.rules.specs.Pivot.{flip_finite, numbers_finite};
ghost use Rattle.rules.specs.Invariant.{FactorFits, Vector};
ghost use Rattle.basis_columns.specs.Columns.{ByColumns};
ghost use Rattle.basis_etas.specs.Store.{Readable};
ghost use Rattle.step_choose.specs.Lent.{Choosing};
ghost use Rattle.step_ratio.specs.Lent.{Stepping};
ghost use Rattle.basis_columns.specs.Loading.{column_on, ColumnLent};
ghost use Rattle.basis_rows.specs.Lent.{RowsLent};
ghost use Rattle.basis_solves.specs.Lent.{Transposed, RowSolve};
ghost use Rattle.step_numbers.specs.Lent.{Listing};
ghost use Rattle.state.specs.Packed.{packed, state_at, state_in, Sized, kept_at, objective_at};

// The entering column, or none.
pub fn choose(
    numbers: &[usize],
    doubles: &[f64],
    n: usize,
    lowers: &[f64],
    uppers: &[f64],
    ops: &[u8],
    kept: &[usize],
) -> Option<rules::Entering>
    requires { Sized numbers.now doubles.now
        × Choosing (bounded n lowers.now uppers.now ops.now kept.now) (packed numbers.now doubles.now) }
    ensures { result ≡ Choose.choose (bounded n lowers.now uppers.now ops.now
        kept.now) (packed numbers.now doubles.now) }
{
    step_choose::choose(
        n,
        lowers,
        uppers,
        ops,
        kept,
        &numbers[state::NB_VARS..state::NB_VARS_END],
        &doubles[state::NB_VAR_VALS..state::NB_VAR_VALS_END],
        &doubles[state::PRICES..state::PRICES_END],
        &doubles[state::NORMS..state::NORMS_END],
        &numbers[state::FLAGS..state::FLAGS_END],
    )
}

// The column of the variable at place `col`, solved, on a fresh vector.
pub fn column(
    values: &mut [f64; doubles::PLACES],
    marks: &mut [bool; doubles::PLACES],
    list: &mut [usize; doubles::PLACES],
    numbers: &[usize],
    doubles: &[f64],
    factor_numbers: &[usize],
    factor_coeffs: &[f64],
    at: state::Tally,
    n: usize,
    m: usize,
    cstarts: &[usize],
    crows: &[usize],
    ccoeffs: &[f64],
    col: usize,
) -> usize
    requires sized { Sized numbers.now doubles.now × Fresh (sv values.old marks.old list.old 0) ×
        (col < max_columns) }
    requires column_lent { ColumnLent cstarts.now crows.now ccoeffs.now n ((packed numbers.now doubles.now).nb_vars # col)
        × Vector m
        (column_on cstarts.now crows.now ccoeffs.now n ((packed numbers.now doubles.now).nb_vars # col)) }
    requires readable { Readable (packed numbers.now doubles.now).etas at.eta_count × FactorFits m
        (factored_of at.factored at.factorings factor_numbers.now factor_coeffs.now) }
    ensures { (P : Problem) → n_of P ≡ n → m_of P ≡ m → ByColumns P cstarts.now crows.now
        ccoeffs.now → sv values.new marks.new list.new result ≡ column_coeffs P
        (state_in numbers.now doubles.now factor_numbers.now
        factor_coeffs.now at) ((packed numbers.now doubles.now).nb_vars # col) }
{
    let var = numbers[state::NB_VARS + col];
    let columns = at.eta_count;
    basis_solves::col_coeffs(
        values,
        marks,
        list,
        cstarts,
        crows,
        ccoeffs,
        at.factored,
        factor_numbers,
        factor_coeffs,
        &numbers[state::ETA_LEAVING..state::ETA_LEAVING_END],
        &numbers[state::ETA_STARTS..state::ETA_STARTS_END],
        &numbers[state::ETA_ROWS..state::ETA_ROWS_END],
        &doubles[state::ETA_COEFFS..state::ETA_COEFFS_END],
        columns,
        n,
        m,
        var,
    )
}

// How far the entering variable goes, and which one leaves.
pub fn ratio(
    numbers: &[usize],
    doubles: &[f64],
    n: usize,
    lowers: &[f64],
    uppers: &[f64],
    ops: &[u8],
    kept: &[usize],
    values: &[f64; doubles::PLACES],
    list: &[usize; doubles::PLACES],
    count: usize,
    e: rules::Entering,
) -> rules::Ratio
    requires { Sized numbers.now doubles.now × Stepping (bounded n lowers.now uppers.now ops.now kept.now)
        (packed numbers.now doubles.now) e list.now count }
    ensures { (m : List Bool) → result ≡ Ratio.ratio
        (bounded n lowers.now uppers.now ops.now kept.now)
        (packed numbers.now doubles.now) e (sv values.now m list.now count) }
{
    step_ratio::ratio(
        e,
        n,
        lowers,
        uppers,
        ops,
        kept,
        &numbers[state::BASIC_VARS..state::BASIC_VARS_END],
        &doubles[state::BASIC_VAR_VALS..state::BASIC_VAR_VALS_END],
        &numbers[state::NB_VARS..state::NB_VARS_END],
        &doubles[state::NB_VAR_VALS..state::NB_VAR_VALS_END],
        &doubles[state::PRICES..state::PRICES_END],
        values,
        list,
        count,
    )
}

// inv_basis_row_coeffs: the row solve's result for a leaving row, on a fresh vector.
pub fn inv_row(
    values: &mut [f64; doubles::PLACES],
    marks: &mut [bool; doubles::PLACES],
    list: &mut [usize; doubles::PLACES],
    numbers: &[usize],
    doubles: &[f64],
    factor_numbers: &[usize],
    factor_coeffs: &[f64],
    at: state::Tally,
    m: usize,
    row: usize,
) -> usize
    requires sized { Sized numbers.now doubles.now × Fresh (sv values.old marks.old list.old 0) × (row < places) }
    requires transposed { Transposed m (packed numbers.now doubles.now).etas at.eta_count
        (factored_of at.factored at.factorings factor_numbers.now factor_coeffs.now) (put_at blank row f1) }
    ensures { (P : Problem) → m_of P ≡ m → sv values.new marks.new list.new result
        ≡ inv_row P (state_in numbers.now doubles.now factor_numbers.now
        factor_coeffs.now at) row }
{
    let columns = at.eta_count;
    basis_solves::inv_row(
        values,
        marks,
        list,
        at.factored,
        factor_numbers,
        factor_coeffs,
        &numbers[state::ETA_LEAVING..state::ETA_LEAVING_END],
        &numbers[state::ETA_STARTS..state::ETA_STARTS_END],
        &numbers[state::ETA_ROWS..state::ETA_ROWS_END],
        &doubles[state::ETA_COEFFS..state::ETA_COEFFS_END],
        columns,
        m,
        row,
    )
}

// calc_row_coeffs: the rows that the row solve's result lists, combined on a fresh vector.
pub fn row(
    values: &mut [f64; doubles::PLACES],
    marks: &mut [bool; doubles::PLACES],
    list: &mut [usize; doubles::PLACES],
    from: &[f64; doubles::PLACES],
    from_list: &[usize; doubles::PLACES],
    from_count: usize,
    numbers: &[usize],
    n: usize,
    starts: &[usize],
    cols: &[usize],
    coeffs: &[f64],
    kept: &[usize],
) -> usize
    requires numbers_len { (length numbers.now ≡ kept_at) × RowsLent (rowed n starts.now cols.now coeffs.now kept.now)
        (length (packed numbers.now []).var_states) }
    requires fresh { Fresh (sv values.old marks.old list.old 0) × (length kept.now ≤ places) ×
        (from_count ≤ places) × Within (length kept.now) from_count from_list.now }
    ensures { (b : List Bool) → sv values.new marks.new list.new result ≡ combine
        (rowed n starts.now cols.now coeffs.now kept.now)
        (packed numbers.now []).var_states
        (sv from.now b from_list.now from_count) }
{
    basis_rows::combine(
        values,
        marks,
        list,
        from,
        from_list,
        from_count,
        n,
        &numbers[state::VAR_STATES..state::VAR_STATES_END],
        starts,
        cols,
        coeffs,
        kept,
    )
}

// tau, the solve of the row solve's result, on a fresh vector.
pub fn tau(
    values: &mut [f64; doubles::PLACES],
    marks: &mut [bool; doubles::PLACES],
    list: &mut [usize; doubles::PLACES],
    from: &[f64; doubles::PLACES],
    from_list: &[usize; doubles::PLACES],
    from_count: usize,
    numbers: &[usize],
    doubles: &[f64],
    factor_numbers: &[usize],
    factor_coeffs: &[f64],
    at: state::Tally,
    m: usize,
) -> usize
    requires sized { Sized numbers.now doubles.now × Fresh (sv values.old marks.old list.old 0)
        × (from_count ≤ places) × Within places from_count from_list.now }
    requires vector { Vector m (relisted (sv from.now [] from_list.now from_count))
        × Readable (packed numbers.now doubles.now).etas at.eta_count
        × FactorFits m (factored_of at.factored at.factorings factor_numbers.now factor_coeffs.now) }
    ensures { (P : Problem) (b : List Bool) → m_of P ≡ m → sv values.new marks.new
        list.new result ≡ tau_of P (state_in numbers.now doubles.now
        factor_numbers.now factor_coeffs.now at)
        (sv from.now b from_list.now from_count) }
{
    let columns = at.eta_count;
    basis_solves::tau(
        values,
        marks,
        list,
        from,
        from_list,
        from_count,
        at.factored,
        factor_numbers,
        factor_coeffs,
        &numbers[state::ETA_LEAVING..state::ETA_LEAVING_END],
        &numbers[state::ETA_STARTS..state::ETA_STARTS_END],
        &numbers[state::ETA_ROWS..state::ETA_ROWS_END],
        &doubles[state::ETA_COEFFS..state::ETA_COEFFS_END],
        columns,
        m,
    )
}

// sq_norms_update_helper, on a fresh vector.
pub fn helper(
    values: &mut [f64; doubles::PLACES],
    marks: &mut [bool; doubles::PLACES],
    list: &mut [usize; doubles::PLACES],
    from: &[f64; doubles::PLACES],
    from_list: &[usize; doubles::PLACES],
    from_count: usize,
    numbers: &[usize],
    doubles: &[f64],
    factor_numbers: &[usize],
    factor_coeffs: &[f64],
    at: state::Tally,
    n: usize,
    starts: &[usize],
    cols: &[usize],
    coeffs: &[f64],
    kept: &[usize],
) -> usize
    requires sized { Sized numbers.now doubles.now × Fresh (sv values.old marks.old list.old 0)
        × (from_count ≤ places) × Within places from_count from_list.now }
    requires row_solve { RowSolve (rowed n starts.now cols.now coeffs.now kept.now)
        (length (packed numbers.now doubles.now).var_states) (packed numbers.now doubles.now).etas
        at.eta_count (factored_of at.factored at.factorings factor_numbers.now factor_coeffs.now)
        (relisted (sv from.now [] from_list.now from_count)) }
    ensures { (m : List Bool) → sv values.new marks.new list.new result ≡ helper_of
        (rowed n starts.now cols.now coeffs.now kept.now)
        (state_in numbers.now doubles.now factor_numbers.now
        factor_coeffs.now at)
        (sv from.now m from_list.now from_count) }
{
    let columns = at.eta_count;
    basis_solves::helper(
        values,
        marks,
        list,
        from,
        from_list,
        from_count,
        at.factored,
        factor_numbers,
        factor_coeffs,
        &numbers[state::ETA_LEAVING..state::ETA_LEAVING_END],
        &numbers[state::ETA_STARTS..state::ETA_STARTS_END],
        &numbers[state::ETA_ROWS..state::ETA_ROWS_END],
        &doubles[state::ETA_COEFFS..state::ETA_COEFFS_END],
        columns,
        n,
        &numbers[state::VAR_STATES..state::VAR_STATES_END],
        starts,
        cols,
        coeffs,
        kept,
    )
}

// Every number that a flip stores is finite.
pub fn flip_finite(
    doubles: &[f64],
    at: state::Tally,
    values: &[f64; doubles::PLACES],
    list: &[usize; doubles::PLACES],
    count: usize,
    e: rules::Entering,
    value: f64,
    diff: f64,
) -> bool
    requires { (length doubles.now ≡ objective_at) × Listing max_rows count list.now }
    ensures { (P : Problem) (N : List ℕ) (m : List Bool) → result ≡ flip_finite P
        (state_at N doubles.now at) e (sv values.now m list.now count) value diff }
{
    step_numbers::flip_finite(
        &doubles[state::BASIC_VAR_VALS..state::BASIC_VAR_VALS_END],
        values,
        list,
        count,
        at.objective,
        e,
        value,
        diff,
    )
}

// Every number that an exchange stores is finite, but for the eta column's or the factor's. `sq` is the column's sum
// of squares.
pub fn numbers_finite(
    doubles: &[f64],
    at: state::Tally,
    values: &[f64; doubles::PLACES],
    list: &[usize; doubles::PLACES],
    count: usize,
    row_values: &[f64; doubles::PLACES],
    row_list: &[usize; doubles::PLACES],
    row_count: usize,
    helper: &[f64; doubles::PLACES],
    sq: f64,
    e: rules::Entering,
    x: state::Exchange,
) -> bool
    requires doubles_len { (length doubles.now ≡ objective_at) × Listing max_rows count list.now × Listing max_columns
        row_count row_list.now }
    requires sq_value { (m : List Bool) → sq ≡ sq_norm (sv values.now m list.now count) }
    ensures { (P : Problem) (N : List ℕ) (m rm : List Bool) (p : Pat) → result ≡ numbers_finite P
        (state_at N doubles.now at) e (sv values.now m list.now count)
        (sv row_values.now rm row_list.now row_count) (sv_of helper.now p)
        x.value x.diff x.row x.pivot x.leaving }
{
    step_numbers::numbers_finite(
        &doubles[state::BASIC_VAR_VALS..state::BASIC_VAR_VALS_END],
        &doubles[state::PRICES..state::PRICES_END],
        &doubles[state::NORMS..state::NORMS_END],
        values,
        list,
        count,
        row_values,
        row_list,
        row_count,
        helper,
        sq,
        at.objective,
        e,
        x.value,
        x.diff,
        x.row,
        x.pivot,
        x.leaving,
    )
}
