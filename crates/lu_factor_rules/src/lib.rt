// The types that factoring's code and its definitions share.
// From minilp 0.2.2, src/lu.rs (lu_factorize), Apache-2.0, changed.
#![tactic(auto)]

// A factor in two lent arrays, `factor_numbers` and `factor_coeffs`: where each of its parts stands. specs/Packed.antt has
// the same ends for the definitions: no place is written anywhere else.
pub const ORDER: usize = 0;

pub const ORDER_END: usize = ORDER + doubles::MAX_ROWS;

pub const NUMBER: usize = ORDER_END;

pub const NUMBER_END: usize = NUMBER + doubles::MAX_ROWS;

pub const L_STARTS: usize = NUMBER_END;

pub const L_STARTS_END: usize = L_STARTS + doubles::MAX_ROWS + 1;

pub const L_ROWS: usize = L_STARTS_END;

pub const L_ROWS_END: usize = L_ROWS + doubles::MAX_TRI_ENTRIES;

pub const U_STARTS: usize = L_ROWS_END;

pub const U_STARTS_END: usize = U_STARTS + doubles::MAX_ROWS + 1;

pub const U_ROWS: usize = U_STARTS_END;

pub const U_ROWS_END: usize = U_ROWS + doubles::MAX_TRI_ENTRIES;

pub const LT_STARTS: usize = U_ROWS_END;

pub const LT_STARTS_END: usize = LT_STARTS + doubles::MAX_ROWS + 1;

pub const LT_ROWS: usize = LT_STARTS_END;

pub const LT_ROWS_END: usize = LT_ROWS + doubles::MAX_TRI_ENTRIES;

pub const UT_STARTS: usize = LT_ROWS_END;

pub const UT_STARTS_END: usize = UT_STARTS + doubles::MAX_ROWS + 1;

pub const UT_ROWS: usize = UT_STARTS_END;

pub const UT_ROWS_END: usize = UT_ROWS + doubles::MAX_TRI_ENTRIES;

pub const FACTOR_NUMBERS: usize = UT_ROWS_END;

// Parts of `factor_coeffs`.
pub const L_COEFFS: usize = 0;

pub const L_COEFFS_END: usize = L_COEFFS + doubles::MAX_TRI_ENTRIES;

pub const U_COEFFS: usize = L_COEFFS_END;

pub const U_COEFFS_END: usize = U_COEFFS + doubles::MAX_TRI_ENTRIES;

pub const LT_COEFFS: usize = U_COEFFS_END;

pub const LT_COEFFS_END: usize = LT_COEFFS + doubles::MAX_TRI_ENTRIES;

pub const UT_COEFFS: usize = LT_COEFFS_END;

pub const UT_COEFFS_END: usize = UT_COEFFS + doubles::MAX_TRI_ENTRIES;

pub const DIAG: usize = UT_COEFFS_END;

pub const DIAG_END: usize = DIAG + doubles::MAX_ROWS;

pub const FACTOR_COEFFS: usize = DIAG_END;

// The row of the largest value so far, and its size.
#[derive(Clone, Copy)]
pub struct Best {
    pub row: usize,
    pub most: f64,
}

// How many entries L and U have.
#[derive(Clone, Copy)]
pub struct Counts {
    pub lower: usize,
    pub upper: usize,
}

// A column's pivot row, the value there, and how many entries L and U have with it.
#[derive(Clone, Copy)]
pub struct Pivot {
    pub row: usize,
    pub value: f64,
    pub counts: Counts,
}

// 23 is NotFinite, 25 is Singular.
#[derive(Clone, Copy)]
pub enum Factored {
    Added(Pivot),
    NotFinite,
    Singular,
}

// What the whole basis gives: its factor's entries, 23 or 25.
#[derive(Clone, Copy)]
pub enum Ended {
    Done(Counts),
    NotFinite,
    Singular,
}
