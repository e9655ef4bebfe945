// The run: primal steps until none is called for, the budget is spent, or a step gives no state.
// From minilp 0.2.2, src/solver.rs, optimize, Apache-2.0, changed: 01's budget, and the answers of a step end it.
#![tactic(auto)]

ghost use Rattle.std.specs.Prelude.{◌≡◌, ◌-◌, ◌<◌, ◌≤◌, length};
ghost use Rattle.doubles.specs.Limits.{max_budget};
ghost use Rattle.rules.specs.Parts.{rowed};
ghost use Rattle.rules.specs.Step.{run_of};
ghost use Rattle.basis_columns.specs.Columns.{ByColumns};
ghost use Rattle.state.specs.Packed.{state_in};
ghost use Rattle.step_refactor.specs.Left.{stepped};
ghost use Rattle.run.specs.Ran.{ran_by};
ghost use Rattle.run.specs.Lent.{Running};

// Why a run ends, and the numbers of its last state that stand in no array. 01: "The step count in the
// answer is the number of steps the rules took".
#[derive(Clone, Copy)]
pub struct Ran {
    pub why: rules::Stop,
    pub at: state::Tally,
}

// 01: "entering column (none: final check); budget", then the step. The budget is that of all the steps
// that the state counts.
pub fn optimize(
    numbers: &mut [usize],
    doubles: &mut [f64],
    factor_numbers: &mut [usize],
    factor_coeffs: &mut [f64],
    at: state::Tally,
    n: usize,
    lowers: &[f64],
    uppers: &[f64],
    starts: &[usize],
    cols: &[usize],
    coeffs: &[f64],
    ops: &[u8],
    kept: &[usize],
    cstarts: &[usize],
    crows: &[usize],
    ccoeffs: &[f64],
    budget: usize,
) -> Ran
    requires running { Running n lowers.now uppers.now starts.now cols.now coeffs.now ops.now kept.now
        numbers.old doubles.old factor_numbers.old factor_coeffs.old at }
    requires by_columns { ByColumns (rowed n starts.now cols.now coeffs.now kept.now) cstarts.now crows.now
        ccoeffs.now × (n < length cstarts.now) × (budget ≤ max_budget) }
    ensures { ran_by result numbers.new doubles.new factor_numbers.new
        factor_coeffs.new ≡ run_of
        (stepped n lowers.now uppers.now starts.now cols.now
        coeffs.now ops.now kept.now) (budget - at.steps)
        (state_in numbers.old doubles.old factor_numbers.old
        factor_coeffs.old at) }
{
    let mut tally = at;
    loop {
        let choice = step_reads::choose(numbers, doubles, n, lowers, uppers, ops, kept);
        let Some(e) = choice else {
            return Ran {
                why: rules::Stop::Finished,
                at: tally,
            };
        };
        if tally.steps >= budget {
            return Ran {
                why: rules::Stop::Spent,
                at: tally,
            };
        }
        let went = step::step(
            numbers,
            doubles,
            factor_numbers,
            factor_coeffs,
            tally,
            n,
            lowers,
            uppers,
            starts,
            cols,
            coeffs,
            ops,
            kept,
            cstarts,
            crows,
            ccoeffs,
            e,
        );
        match went {
            Ok(after) => {
                tally = after;
            }
            Err(why) => {
                return Ran { why, at: tally };
            }
        }
    }
}
