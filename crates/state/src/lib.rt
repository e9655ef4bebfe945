// The solver's state in two lent arrays: where each section of them stands. specs/Packed.antt has the same names for
// the definitions: no place is written anywhere else. A run is lent the workspace's part of each, up to KEPT and
// OBJECTIVE.
#![tactic(auto)]

// Sections of `numbers`.
pub const BASIC_VARS: usize = 0;

pub const BASIC_VARS_END: usize = BASIC_VARS + doubles::MAX_ROWS;

pub const NB_VARS: usize = BASIC_VARS_END;

pub const NB_VARS_END: usize = NB_VARS + doubles::MAX_COLUMNS;

pub const VAR_STATES: usize = NB_VARS_END;

pub const VAR_STATES_END: usize = VAR_STATES + doubles::VARS;

pub const FLAGS: usize = VAR_STATES_END;

pub const FLAGS_END: usize = FLAGS + doubles::MAX_COLUMNS;

pub const ETA_LEAVING: usize = FLAGS_END;

pub const ETA_LEAVING_END: usize = ETA_LEAVING + doubles::ETA_COLUMNS;

pub const ETA_STARTS: usize = ETA_LEAVING_END;

pub const ETA_STARTS_END: usize = ETA_STARTS + doubles::ETA_COLUMNS + 1;

pub const ETA_ROWS: usize = ETA_STARTS_END;

pub const ETA_ROWS_END: usize = ETA_ROWS + doubles::ETA_ENTRIES;

pub const KEPT: usize = ETA_ROWS_END;

pub const KEPT_END: usize = KEPT + doubles::MAX_ROWS;

pub const COUNTS: usize = KEPT_END;

pub const COUNTS_END: usize = COUNTS + doubles::COUNT_CELLS;

pub const NUMBERS: usize = COUNTS_END;

// Sections of `doubles`.
pub const BASIC_VAR_VALS: usize = 0;

pub const BASIC_VAR_VALS_END: usize = BASIC_VAR_VALS + doubles::MAX_ROWS;

pub const NB_VAR_VALS: usize = BASIC_VAR_VALS_END;

pub const NB_VAR_VALS_END: usize = NB_VAR_VALS + doubles::MAX_COLUMNS;

pub const PRICES: usize = NB_VAR_VALS_END;

pub const PRICES_END: usize = PRICES + doubles::MAX_COLUMNS;

pub const NORMS: usize = PRICES_END;

pub const NORMS_END: usize = NORMS + doubles::MAX_COLUMNS;

pub const ETA_COEFFS: usize = NORMS_END;

pub const ETA_COEFFS_END: usize = ETA_COEFFS + doubles::ETA_ENTRIES;

pub const DUAL_NORMS: usize = ETA_COEFFS_END;

pub const DUAL_NORMS_END: usize = DUAL_NORMS + doubles::MAX_ROWS;

pub const OBJECTIVE: usize = DUAL_NORMS_END;

pub const OBJECTIVE_END: usize = OBJECTIVE + 1;

pub const DOUBLES: usize = OBJECTIVE_END;

// The numbers of a state that stand in no array.
#[derive(Clone, Copy)]
pub struct Tally {
    pub eta_count: usize,
    pub objective: f64,
    pub steps: usize,
    // Whether there is a factor, and how often the basis was factored.
    pub factored: bool,
    pub factorings: usize,
}

// The numbers of an exchange, as the ratio gives them.
#[derive(Clone, Copy)]
pub struct Exchange {
    pub value: f64,
    pub diff: f64,
    pub row: usize,
    pub pivot: f64,
    pub leaving: f64,
}
