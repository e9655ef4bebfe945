// 01, "Start": the first state. Its numbers are reckoned in scratch and tested there, and only then copied.
// From minilp 0.2.2, src/solver.rs, try_new, Apache-2.0, changed: 01's rules, lent arrays.
#![tactic(auto)]

ghost use Rattle.std.specs.Prelude.{◌≡◌, [], ◌<◌, ◌≤◌, ◌+◌, ◌^◌, length};
ghost use Rattle.doubles.specs.Num.{f1};
ghost use Rattle.doubles.specs.Limits.{max_columns, max_rows};
ghost use Rattle.doubles.specs.Loop.{table};
ghost use Rattle.doubles.specs.Lists.{◌!◌, over};
ghost use Rattle.rules.specs.Start.{start_flags};
ghost use Rattle.state.specs.Packed.{packed, Sized};
ghost use Rattle.start_values.specs.Lent.{costed, Columns};
ghost use Rattle.start.specs.Lent.{Scratch};
ghost use Rattle.start.specs.Reckoned.{written};

// The first n of `from` over the front of `to`.
fn copy_front(n: usize, from: &[f64], to: &mut [f64])
    requires { (n ≤ length from.now) × (n ≤ length to.old) }
    ensures { to.new ≡ over (table n (λ j. from.now ! j)) to.old }
{
    for j in 0..n {
        to[j] = from[j];
    }
}

// n numbers from `first` on, over the front of `to`.
fn count_from(first: usize, n: usize, to: &mut [usize])
    requires { (first + n < 2 ^ 64) × (n ≤ length to.old) }
    ensures { to.new ≡ over (table n (λ c. first + c)) to.old }
{
    for c in 0..n {
        to[c] = first + c;
    }
}

fn write_flags(n: usize, lowers: &[f64], uppers: &[f64], xs: &[f64], flags: &mut [usize])
    requires { (n ≤ length lowers.now) × (n ≤ length uppers.now) × (n ≤ length xs.now) ×
        (n ≤ length flags.old) }
    ensures { flags.new ≡ over (table n
        (start_flags (costed n [] lowers.now uppers.now) xs.now)) flags.old }
{
    for j in 0..n {
        let f = rules::NonBasicVarState {
            at_min: xs[j] == lowers[j],
            at_max: xs[j] == uppers[j],
            fixed: false,
        };
        flags[j] = cells::pack_flags(f);
    }
}

// 02, Ask 8: "1.0 for each kept row at the start".
fn write_dual_norms(m: usize, norms: &mut [f64])
    requires { m ≤ length norms.old }
    ensures { norms.new ≡ over (table m (λ r. f1)) norms.old }
{
    for r in 0..m {
        norms[r] = 1.0;
    }
}

// The first state over the fronts of its sections, from the numbers in scratch. "Columns are non-basic in their order,
// and slacks basic in theirs, so the cell of variable v is v"; the eta store is empty.
pub fn write_start(
    n: usize,
    m: usize,
    costs: &[f64],
    lowers: &[f64],
    uppers: &[f64],
    xs: &[f64; doubles::MAX_COLUMNS],
    slacks: &[f64; doubles::MAX_ROWS],
    norms: &[f64; doubles::MAX_COLUMNS],
    numbers: &mut [usize],
    doubles: &mut [f64],
)
    requires n_le_max_columns { (n ≤ max_columns) × (m ≤ max_rows) × Columns n costs.now lowers.now uppers.now × Scratch n m
        xs.now slacks.now norms.now }
    requires sized { Sized numbers.old doubles.old }
    ensures { packed numbers.new doubles.new ≡ written n m costs.now
        lowers.now uppers.now xs.now slacks.now norms.now
        (packed numbers.old doubles.old) }
{
    count_from(n, m, &mut numbers[state::BASIC_VARS..state::BASIC_VARS_END]);
    copy_front(
        m,
        slacks,
        &mut doubles[state::BASIC_VAR_VALS..state::BASIC_VAR_VALS_END],
    );
    count_from(0, n, &mut numbers[state::NB_VARS..state::NB_VARS_END]);
    copy_front(
        n,
        xs,
        &mut doubles[state::NB_VAR_VALS..state::NB_VAR_VALS_END],
    );
    copy_front(n, costs, &mut doubles[state::PRICES..state::PRICES_END]);
    copy_front(n, norms, &mut doubles[state::NORMS..state::NORMS_END]);
    write_flags(
        n,
        lowers,
        uppers,
        xs,
        &mut numbers[state::FLAGS..state::FLAGS_END],
    );
    count_from(
        0,
        n + m,
        &mut numbers[state::VAR_STATES..state::VAR_STATES_END],
    );
    numbers[state::ETA_STARTS] = 0;
    write_dual_norms(m, &mut doubles[state::DUAL_NORMS..state::DUAL_NORMS_END]);
}
