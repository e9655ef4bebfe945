// The two ends of a call that fixes or unfixes a column: the kept state is taken up, and its run is closed.
#![tactic(auto)]

ghost use Rattle.std.specs.Prelude.{◌≡◌, ℕ, List, Float};
ghost use Rattle.rules.specs.Plan.{Problem, m_of};
ghost use Rattle.rules.specs.Step.{ended};
ghost use Rattle.state.specs.Packed.{state_in};
ghost use Rattle.state.specs.Memory.{memory_in, past_of};
ghost use Rattle.check_final.specs.Lent.{checked_of};
ghost use Rattle.check_close.specs.Lent.{Closes};
ghost use Rattle.fix_rules.specs.Kept.{kept_state};
ghost use Rattle.fix_rules.specs.Calls.{close_call};
ghost use Rattle.fix_ends.specs.Ends.{TakesUp, handed_call, told_by};

// docs/RULES-02.md: "Steps are counted from 0 in each call"; "The transposes aren't looked at: a call makes them anew
// from L and U". m rows are kept.
pub fn take_up(
    m: usize,
    numbers: &[usize],
    doubles: &[f64],
    factor_numbers: &mut [usize],
    factor_coeffs: &mut [f64],
) -> state::Tally
    requires { TakesUp m numbers.now doubles.now factor_numbers.old factor_coeffs.old }
    ensures { (P : Problem) (v : List Float) → m_of P ≡ m → state_in numbers.now doubles.now
        factor_numbers.new factor_coeffs.new result ≡ kept_state P
        (memory_in v numbers.now doubles.now factor_numbers.old
        factor_coeffs.old) }
{
    let eta_count = numbers[state::COUNTS + 1];
    let factored = numbers[state::COUNTS + 5] == 1;
    let objective = doubles[state::OBJECTIVE];
    fix_renew::kept_factor(factored, m, factor_numbers, factor_coeffs);
    state::Tally {
        eta_count,
        objective,
        steps: 0,
        factored,
        factorings: 0,
    }
}

// The end of a solve, and then "factorings go on from the number there", which is free and wraps round.
pub fn close(
    n: usize,
    tolerance: f64,
    lowers: &[f64],
    uppers: &[f64],
    starts: &[usize],
    cols: &[usize],
    coeffs: &[f64],
    ops: &[u8],
    rhs: &[f64],
    kept: &[usize],
    why: rules::Stop,
    at: state::Tally,
    values: &mut [f64],
    numbers: &mut [usize],
    doubles: &mut [f64],
) -> rules::Answer
    requires { Closes (checked_of n tolerance lowers.now uppers.now starts.now cols.now coeffs.now ops.now
        rhs.now kept.now) values.old numbers.old doubles.old at }
    ensures { (F : List ℕ) (G : List Float) → told_by result values.new numbers.new
        doubles.new F G ≡ handed_call
        (close_call (checked_of n tolerance lowers.now uppers.now starts.now
        cols.now coeffs.now ops.now rhs.now kept.now)
        (memory_in values.old numbers.old doubles.old F G)
        (ended why (state_in numbers.old doubles.old F G at)))
        (past_of numbers.old doubles.old) }
{
    let before = numbers[state::COUNTS + 6];
    let answer = check_close::close(
        n, tolerance, lowers, uppers, starts, cols, coeffs, ops, rhs, kept, why, at, values,
        numbers, doubles,
    );
    numbers[state::COUNTS + 6] = std::num::wrapping_add_usize(before, at.factorings);
    answer
}
