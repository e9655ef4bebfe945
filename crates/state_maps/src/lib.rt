// Whether the memory still has the rows and the maps that a run over this plan left: the test behind 41.
#![tactic(auto)]

ghost use Rattle.std.specs.Prelude.{◌≡◌, [], ◌<◌, ◌≤◌, ◌+◌, ltb, eqb, length};
ghost use Rattle.doubles.specs.Num.{f0};
ghost use Rattle.doubles.specs.Limits.{max_rows, max_columns};
ghost use Rattle.doubles.specs.Loop.{all};
ghost use Rattle.doubles.specs.Lists.{◌#◌};
ghost use Rattle.rules.specs.Plan.{kept_rows};
ghost use Rattle.rules.specs.Parts.{plan_of, workspace_of, no_etas};
ghost use Rattle.plan.specs.Lent.{rows_of};
ghost use Rattle.state.specs.Memory.{memory_in, numbers_end};
ghost use Rattle.state_maps.specs.Maps.{rows_fine, leads_back, cells_fine, maps_fine};

// Whether the first n numbers of two arrays are the same.
fn same(n: usize, xs: &[usize], ys: &[usize]) -> bool
    requires { (n ≤ length xs.now) × (n ≤ length ys.now) }
    ensures { result ≡ all n (λ k. eqb (xs.now # k) (ys.now # k)) }
{
    xs[..n] == ys[..n]
}

// Whether the kept rows are those of the plan, which are found anew.
fn rows_fine(rows: usize, starts: &[usize], count: usize, kept: &[usize]) -> bool
    requires { (rows ≤ max_rows) × (rows < length starts.now) × (rows ≤ length kept.now) }
    ensures { result ≡ rows_fine (kept_rows (rows_of 0 rows starts.now [])) count kept.now }
{
    let mut mine = [0; doubles::MAX_ROWS];
    let m = plan::keep_rows(rows, starts, &mut mine);
    if count != m {
        return false;
    }
    same(m, kept, &mine)
}

// Whether v is a variable whose cell leads back to where it stands.
pub fn leads_back(vars: usize, states: &[usize], at: usize, v: usize) -> bool
    requires { vars ≤ length states.now }
    ensures { result ≡ leads_back vars states.now at v }
{
    if v < vars {
        return states[v] == at;
    }
    false
}

// The same of the variables at n places, of which the first is `from`.
pub fn all_lead_back(vars: usize, states: &[usize], from: usize, n: usize, at: &[usize]) -> bool
    requires { (vars ≤ length states.now) × (from + n ≤ vars) × (n ≤ length at.now) }
    ensures { result ≡ all n (λ k. leads_back vars states.now (from + k) (at.now # k)) }
{
    for (i, &v) in at[..n].iter().enumerate() {
        if !leads_back(vars, states, from + i, v) {
            return false;
        }
    }
    true
}

// Whether the first n numbers are below a limit.
pub fn all_below(limit: usize, n: usize, xs: &[usize]) -> bool
    requires { n ≤ length xs.now }
    ensures { result ≡ all n (λ k. ltb (xs.now # k) limit) }
{
    xs[..n].iter().all(|&x| x < limit)
}

// Whether the maps of n columns and m kept rows lead back and forth.
fn cells_fine(n: usize, m: usize, basic: &[usize], nonbasic: &[usize], states: &[usize]) -> bool
    requires { (n ≤ max_columns) × (m ≤ max_rows) × (m ≤ length basic.now) × (n ≤ length nonbasic.now) ×
        (n + m ≤ length states.now) }
    ensures { result ≡ cells_fine n m (workspace_of basic.now [] nonbasic.now [] [] [] [] []
        states.now no_etas) }
{
    let vars = n + m;
    all_lead_back(vars, states, 0, n, nonbasic)
        & all_lead_back(vars, states, n, m, basic)
        & all_below(vars, vars, states)
}

// The whole test, on the sections of `numbers`.
pub fn maps_fine(columns: usize, rows: usize, starts: &[usize], numbers: &[usize]) -> bool
    requires { (columns ≤ max_columns) × (rows ≤ max_rows) × (rows < length starts.now) ×
        (numbers_end ≤ length numbers.now) }
    ensures { result ≡ maps_fine (plan_of columns rows 0 0 f0 [] [] [] starts.now [] [] [] [])
        (memory_in [] numbers.now [] [] []) }
{
    let count = numbers[state::COUNTS];
    if !rows_fine(rows, starts, count, &numbers[state::KEPT..state::KEPT_END]) {
        return false;
    }
    cells_fine(
        columns,
        count,
        &numbers[state::BASIC_VARS..state::BASIC_VARS_END],
        &numbers[state::NB_VARS..state::NB_VARS_END],
        &numbers[state::VAR_STATES..state::VAR_STATES_END],
    )
}
