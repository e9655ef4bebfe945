// The night call's definitions, and the types that they share with its code (02, Ask 14).
#![tactic(auto)]

ghost use Rattle.std.specs.Prelude.{◌≡◌, ◌+◌, ◌≤◌, length};

// What came of a stage's audit: nothing was proposed, as the run was refused or didn't end in 0; a proposed number
// isn't whole; opening refused with this number; or the sheet was opened and judged.
#[derive(Clone, Copy)]
pub enum Audit {
    NotRun,
    NotWhole(whole_propose::Proposal),
    NotOpened(usize),
    Judged(sheet_rules::Verdict),
}

#[derive(Clone, Copy)]
pub struct Stage {
    pub run: rules::Answer,
    pub audit: Audit,
}

// The answer of the night. The first five stops after the first stage are in the order in which 02 has them.
#[derive(Clone, Copy)]
pub enum NightAnswer {
    ShortMemory,
    NoGap(Stage),
    RowsFull(Stage),
    EntriesFull(Stage),
    CostBeyond { first: Stage, column: usize },
    FoundBeyond(Stage),
    // The first stage's amounts stand.
    FirstStands { first: Stage, second: Stage },
    // The second stage's amounts are handed out.
    Handed { first: Stage, second: Stage },
}

// A stage's section: amounts, multipliers, then the kept R, D, C, B and counts. specs/Stage.antt has the same places.
pub const AMOUNTS_END: usize = doubles::MAX_COLUMNS;

pub const MULTS_END: usize = AMOUNTS_END + doubles::MAX_ROWS;

pub const R_END: usize = MULTS_END + doubles::MAX_ROWS;

pub const D_END: usize = R_END + doubles::MAX_COLUMNS;

pub const C_END: usize = D_END + 1;

pub const B_END: usize = C_END + 1;

pub const SECTION: usize = B_END + 4;

// Sections of `whole`: of the two stages, the amounts handed out, the second stage's coefficients. specs/Night.antt has
// the same places. The first stage's section begins at 0.
pub const SECOND: usize = SECTION;

pub const HANDED: usize = SECOND + SECTION;

pub const COEFS: usize = HANDED + doubles::MAX_COLUMNS;

pub const WHOLE: usize = COEFS + doubles::MAX_ROWS * doubles::MAX_COLUMNS;
