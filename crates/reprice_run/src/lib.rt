// docs/RULES-02.md, "Beyond: reprice": from the state that a run left to the end of the call's own run: parts 1 to 5,
// "Then primal steps until no column enters, with the budget from 0".
#![tactic(auto)]

ghost use Rattle.std.specs.Prelude.{◌≡◌};
ghost use Rattle.state.specs.Packed.{state_in};
ghost use Rattle.run.specs.Ran.{ran_by};
ghost use Rattle.reprice_run.specs.Lent.{pricing_of, counted_end, Repricing};

use run::Ran;

// The own factoring is counted last, so that within the run factorings are never above steps.
pub fn gone_on(
    numbers: &mut [usize],
    doubles: &mut [f64],
    factor_numbers: &mut [usize],
    factor_coeffs: &mut [f64],
    at: state::Tally,
    n: usize,
    budget: usize,
    costs: &[f64],
    lowers: &[f64],
    uppers: &[f64],
    starts: &[usize],
    cols: &[usize],
    coeffs: &[f64],
    ops: &[u8],
    kept: &[usize],
) -> Ran
    requires { Repricing n budget costs.now lowers.now uppers.now starts.now cols.now coeffs.now ops.now
        kept.now numbers.old doubles.old factor_numbers.old factor_coeffs.old at }
    ensures { ran_by result numbers.new doubles.new factor_numbers.new
        factor_coeffs.new ≡ counted_end
        (pricing_of n budget costs.now lowers.now uppers.now starts.now
        cols.now coeffs.now ops.now kept.now)
        (state_in numbers.old doubles.old factor_numbers.old
        factor_coeffs.old at) }
{
    let own = reprice_store::repriced(
        numbers,
        doubles,
        factor_numbers,
        factor_coeffs,
        at,
        n,
        costs,
        starts,
        cols,
        coeffs,
        kept,
    );
    match own {
        Err(why) => {
            return Ran { why, at };
        }
        Ok(t) => {
            let ran = run_launch::go_on(
                numbers,
                doubles,
                factor_numbers,
                factor_coeffs,
                t,
                n,
                budget,
                lowers,
                uppers,
                starts,
                cols,
                coeffs,
                ops,
                kept,
                false,
            );
            if at.eta_count == 0 {
                return ran;
            }
            let why = ran.why;
            let last = ran.at;
            let factorings = last.factorings + 1;
            return Ran {
                why,
                at: state::Tally {
                    eta_count: last.eta_count,
                    objective: last.objective,
                    steps: last.steps,
                    factored: last.factored,
                    factorings,
                },
            };
        }
    }
}
