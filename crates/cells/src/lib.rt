// The bounds of a variable, and the cells that hold more than a number: a place, and flags.
// From minilp 0.2.2, src/solver.rs, Apache-2.0, changed: orig_var_mins, orig_var_maxs, VarState and
// NonBasicVarState are read from the plan's arrays and from one number each.
#![tactic(auto)]

ghost use Rattle.std.specs.Prelude.{◌≡◌, [], ◌<◌, ◌+◌, ◌^◌, length};
ghost use Rattle.rules.specs.Plan.{slack_min, slack_max, var_min, var_max, flags_of, flags_cell, var_state_of, var_cell, bit};
ghost use Rattle.rules.specs.Parts.{bounded};
ghost use Rattle.cells.specs.Bounds.{Bounds};

// 01: "A slack's bounds: Le 0 to +inf, Ge -inf to 0, Eq 0 to 0"; "Le, Eq, Ge are 0, 1, 2".
pub fn slack_min(op: u8) -> f64
    ensures { result ≡ slack_min op }
{
    match op {
        0 => 0.0,
        1 => 0.0,
        _ => -doubles::infinity(),
    }
}

pub fn slack_max(op: u8) -> f64
    ensures { result ≡ slack_max op }
{
    match op {
        0 => doubles::infinity(),
        1 => 0.0,
        _ => 0.0,
    }
}

// orig_var_mins[v]: a column's bound is the plan's, and a slack's goes by its row's comparison.
pub fn var_min(n: usize, lowers: &[f64], ops: &[u8], kept: &[usize], v: usize) -> f64
    requires { Bounds n lowers.now ops.now kept.now × (v < n + length kept.now) }
    ensures { result ≡ var_min (bounded n lowers.now [] ops.now kept.now) v }
{
    if v < n {
        return lowers[v];
    }
    let row = kept[v - n];
    slack_min(ops[row])
}

// orig_var_maxs[v]
pub fn var_max(n: usize, uppers: &[f64], ops: &[u8], kept: &[usize], v: usize) -> f64
    requires { Bounds n uppers.now ops.now kept.now × (v < n + length kept.now) }
    ensures { result ≡ var_max (bounded n [] uppers.now ops.now kept.now) v }
{
    if v < n {
        return uppers[v];
    }
    let row = kept[v - n];
    slack_max(ops[row])
}

// What a cell of var_states says: a place below n is non-basic, n + row is basic.
pub fn var_state(n: usize, cell: usize) -> rules::VarState
    ensures { result ≡ var_state_of n cell }
{
    if cell < n {
        return rules::VarState::NonBasic(cell);
    }
    rules::VarState::Basic(cell - n)
}

pub fn var_cell(n: usize, state: rules::VarState) -> usize
    requires { var_cell n state < 2 ^ 64 }
    ensures { result ≡ var_cell n state }
{
    match state {
        rules::VarState::NonBasic(col) => col,
        rules::VarState::Basic(row) => n + row,
    }
}

// What a cell of nb_var_states says. These two alone look at its bits. 02, Ask 9: the third is the fixed mark.
pub fn read_flags(cell: usize) -> rules::NonBasicVarState
    ensures { result ≡ flags_of cell }
{
    rules::NonBasicVarState {
        at_min: cell % 2 == 1,
        at_max: cell / 2 % 2 == 1,
        fixed: cell / 4 % 2 == 1,
    }
}

pub fn pack_flags(f: rules::NonBasicVarState) -> usize
    ensures { result ≡ flags_cell f }
{
    let at_min = bit(f.at_min);
    let at_max = bit(f.at_max);
    let fixed = bit(f.fixed);
    at_min + 2 * at_max + 4 * fixed
}

pub fn bit(b: bool) -> usize
    ensures { (result ≡ bit b) × (result < 2) }
{
    if b {
        return 1;
    }
    0
}
