// The answers on a file as the numbers that the face hands out.
#![tactic(auto, unfolding(crate::specs::Numbers::written_numbers, crate::specs::Numbers::read_numbers))]

ghost use Rattle.std.specs.Prelude.{◌≡◌};
ghost use Rattle.file_face.specs.Numbers.{written_numbers, read_numbers};

use file_rules::{Reading, Writing};

// 0 and how many bytes the file has, or the number of the refusal.
#[repr(C)]
#[derive(Clone, Copy)]
pub struct TevalumiWritten {
    pub status: usize,
    pub bytes: usize,
}

impl From<Writing> for TevalumiWritten {
    fn from(w: Writing) -> TevalumiWritten
        ensures { result ≡ written_numbers w }
    {
        match w {
            Writing::Written(bytes) => TevalumiWritten { status: 0, bytes },
            Writing::Refused(number) => TevalumiWritten {
                status: number,
                bytes: 0,
            },
        }
    }
}

// 0 and the plan's sizes, or the number of the refusal and its block.
#[repr(C)]
#[derive(Clone, Copy)]
pub struct TevalumiRead {
    pub status: usize,
    pub block: usize,
    pub rows: usize,
    pub columns: usize,
}

impl From<Reading> for TevalumiRead {
    fn from(a: Reading) -> TevalumiRead
        ensures { result ≡ read_numbers a }
    {
        match a {
            Reading::Held { rows, columns } => TevalumiRead {
                status: 0,
                block: 0,
                rows,
                columns,
            },
            Reading::Refused { number, block } => TevalumiRead {
                status: number,
                block,
                rows: 0,
                columns: 0,
            },
        }
    }
}
