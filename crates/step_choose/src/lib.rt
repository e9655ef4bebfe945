// The choice of the entering column.
// From minilp 0.2.2, src/solver.rs, choose_pivot, Apache-2.0, changed: the choice stands apart from the
// ratio, the bounds of a variable are looked up, and a column at neither bound needs a price.
#![tactic(auto)]

ghost use Rattle.std.specs.Prelude.{◌≡◌, [], ◌<◌, ◌≤◌, ◌+◌, length};
ghost use Rattle.rules.specs.Parts.{bounded};
ghost use Rattle.rules.specs.Choose.{may_enter, best_column, other_val};
ghost use Rattle.rules.specs.Choose as Choose;
ghost use Rattle.cells.specs.Bounds.{Sides};
ghost use Rattle.step_choose.specs.Lent.{non_basic_of, Places, Choosing};
ghost use Rattle.step_choose.specs.Parts.{column, better_of, side_of};

// 01: "Filter as shown": at its lower bound a column enters only with a price of at most -EPS, at its
// upper bound only with one of at least EPS. 02: "a column at neither bound enters only if its price's
// size is at least EPS".
pub fn may_enter(f: rules::NonBasicVarState, price: f64) -> bool
    ensures { result ≡ may_enter f price }
{
    let at_min = f.at_min;
    let at_max = f.at_max;
    !((at_min & (-doubles::EPS < price))
        | (at_max & (price < doubles::EPS))
        | (!at_min & !at_max & doubles::under_eps(price)))
}

// The best column so far and its score; `col` is n where there is none.
#[derive(Clone, Copy)]
pub struct Best {
    pub col: usize,
    pub score: f64,
}

// 01: "strictly largest wins, first on a tie".
fn better(c: usize, price: f64, norm: f64, flags: usize, best: Best) -> Best
    ensures { column result ≡ better_of c price norm flags (column best) }
{
    if !may_enter(cells::read_flags(flags), price) {
        return best;
    }
    let score = price * price / norm;
    if best.score < score {
        return Best { col: c, score };
    }
    best
}

pub fn best_column(n: usize, prices: &[f64], norms: &[f64], flags: &[usize]) -> Best
    requires { (n ≤ length prices.now) × (n ≤ length norms.now) × (n ≤ length flags.now) }
    ensures { column result ≡ best_column n (non_basic_of [] [] prices.now norms.now
        flags.now) }
{
    let mut best = Best {
        col: n,
        score: -doubles::infinity(),
    };
    for c in 0..n {
        best = better(c, prices[c], norms[c], flags[c], best);
    }
    best
}

// A variable's upper bound, or its lower one.
pub fn side(
    n: usize,
    lowers: &[f64],
    uppers: &[f64],
    ops: &[u8],
    kept: &[usize],
    max: bool,
    v: usize,
) -> f64
    requires { Sides (bounded n lowers.now uppers.now ops.now kept.now) × (v < n + length kept.now) }
    ensures { result ≡ side_of (bounded n lowers.now uppers.now ops.now
        kept.now) max v }
{
    if max {
        return cells::var_max(n, uppers, ops, kept, v);
    }
    cells::var_min(n, lowers, ops, kept, v)
}

// The bound that the entering variable moves to: it rises where its price is below 0.0.
pub fn other_val(
    n: usize,
    lowers: &[f64],
    uppers: &[f64],
    ops: &[u8],
    kept: &[usize],
    nb_vars: &[usize],
    prices: &[f64],
    col: usize,
) -> f64
    requires sides { Sides (bounded n lowers.now uppers.now ops.now kept.now) × (col < n) }
    requires places { Places (bounded n lowers.now uppers.now ops.now kept.now)
        (non_basic_of nb_vars.now [] prices.now [] []) }
    ensures { result ≡ other_val (bounded n lowers.now uppers.now ops.now
        kept.now) (non_basic_of nb_vars.now [] prices.now [] []) col }
{
    side(
        n,
        lowers,
        uppers,
        ops,
        kept,
        prices[col] < 0.0,
        nb_vars[col],
    )
}

// 01: "The entering column travels with its price, score and distance".
pub fn choose(
    n: usize,
    lowers: &[f64],
    uppers: &[f64],
    ops: &[u8],
    kept: &[usize],
    nb_vars: &[usize],
    nb_var_vals: &[f64],
    prices: &[f64],
    norms: &[f64],
    flags: &[usize],
) -> Option<rules::Entering>
    requires { Choosing (bounded n lowers.now uppers.now ops.now kept.now)
        (non_basic_of nb_vars.now nb_var_vals.now prices.now norms.now flags.now) }
    ensures { result ≡ Choose.choose (bounded n lowers.now uppers.now ops.now
        kept.now) (non_basic_of nb_vars.now nb_var_vals.now prices.now
        norms.now flags.now) }
{
    let best = best_column(n, prices, norms, flags);
    let col = best.col;
    if col < n {
        let other = other_val(n, lowers, uppers, ops, kept, nb_vars, prices, col);
        let e = rules::Entering {
            col,
            price: prices[col],
            score: best.score,
            distance: doubles::abs(other - nb_var_vals[col]),
        };
        return Some(e);
    }
    None
}
