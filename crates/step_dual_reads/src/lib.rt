// What a dual step chooses, read out of the state: each function is lent both arrays to read and makes the sections that it
// needs, as those of step_reads.
#![tactic(auto)]

ghost use Rattle.std.specs.Prelude.{◌≡◌, Bool, List};
ghost use Rattle.sparse.specs.Scattered.{sv};
ghost use Rattle.rules.specs.Parts.{bounded};
ghost use Rattle.rules.specs.DualRow.{choose_row};
ghost use Rattle.rules.specs.DualRatio.{leaving_rises, test_by, dual_ratio_by};
ghost use Rattle.step_leaving.specs.Lent.{Leaving};
ghost use Rattle.step_prices.specs.Lent.{Pricing};
ghost use Rattle.state.specs.Packed.{packed, Sized};

// The leaving row, or none.
pub fn choose_row(
    numbers: &[usize],
    doubles: &[f64],
    n: usize,
    lowers: &[f64],
    uppers: &[f64],
    ops: &[u8],
    kept: &[usize],
) -> Option<rules::LeavingVar>
    requires { Sized numbers.now doubles.now
        × Leaving (bounded n lowers.now uppers.now ops.now kept.now) (packed numbers.now doubles.now) }
    ensures { result ≡ choose_row (bounded n lowers.now uppers.now ops.now
        kept.now) (packed numbers.now doubles.now) }
{
    step_leaving::choose_row(
        n,
        lowers,
        uppers,
        ops,
        kept,
        &numbers[state::BASIC_VARS..state::BASIC_VARS_END],
        &doubles[state::BASIC_VAR_VALS..state::BASIC_VAR_VALS_END],
        &doubles[state::DUAL_NORMS..state::DUAL_NORMS_END],
    )
}

// The entering column of the leaving row l, or none. `still`: the leaving variable is fixed where it stands.
pub fn dual_ratio(
    numbers: &[usize],
    doubles: &[f64],
    values: &[f64; doubles::PLACES],
    list: &[usize; doubles::PLACES],
    count: usize,
    l: rules::LeavingVar,
    still: bool,
) -> rules::DualRatio
    requires { Sized numbers.now doubles.now × Pricing (packed numbers.now doubles.now) l list.now count }
    ensures { (m : List Bool) → result ≡ dual_ratio_by
        (test_by still (leaving_rises (packed numbers.now doubles.now) l))
        (packed numbers.now doubles.now) l
        (sv values.now m list.now count) }
{
    step_prices::dual_ratio(
        l,
        still,
        &doubles[state::BASIC_VAR_VALS..state::BASIC_VAR_VALS_END],
        &doubles[state::NB_VAR_VALS..state::NB_VAR_VALS_END],
        &doubles[state::PRICES..state::PRICES_END],
        &numbers[state::FLAGS..state::FLAGS_END],
        values,
        list,
        count,
    )
}
