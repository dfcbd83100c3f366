// The rows of a frame from the peer: which one holds, and what each says.
#![tactic(auto)]

ghost use Rattle.std.specs.Prelude.{◌≡◌};
ghost use Rattle.rds_rows.specs.Rows.{common, best, reserve_row, release_row, answer_row, event_of, status_of, format_of};

// RDS.md, section 5.
#[derive(Clone, Copy)]
pub enum Row {
    R1,
    R2,
    R3,
    R4,
    R5,
    R6,
    R7,
    R8,
    R9,
    R10,
    R11,
    R12,
    R13,
    R14,
    R15,
}

// Whether two formats have bit 1 in common.
#[tactic(auto, unfolding(crate::specs::Rows::common))]
fn shared(o: u8, s: u8) -> bool
    ensures { result ≡ common o s }
{
    o % 2 == 1 && s % 2 == 1
}

// The lowest format that is both offered and supported, 0 where there is none.
#[tactic(auto, unfolding(crate::specs::Rows::best))]
pub fn best(o: u8, s: u8) -> u8
    ensures { result ≡ best o s }
{
    if shared(o, s) {
        1
    } else if shared(o / 2, s / 2) {
        2
    } else if shared(o / 4, s / 4) {
        4
    } else {
        0
    }
}

// The row of a Reserve command.
#[tactic(auto, unfolding(crate::specs::Rows::reserve_row))]
pub fn reserve_row(again: bool, mine: bool, taken: bool, none: bool) -> Row
    ensures { result ≡ reserve_row again mine taken none }
{
    if again {
        Row::R1
    } else if mine && taken {
        Row::R2
    } else if none {
        Row::R3
    } else if mine {
        Row::R5
    } else {
        Row::R4
    }
}

// The row of a Release command.
#[tactic(auto, unfolding(crate::specs::Rows::release_row))]
pub fn release_row(mine: bool, held: bool) -> Row
    ensures { result ≡ release_row mine held }
{
    match (mine, held) {
        (false, _) => Row::R6,
        (true, true) => Row::R7,
        (true, false) => Row::R8,
    }
}

// The row of a response to our outstanding command.
#[tactic(auto, unfolding(crate::specs::Rows::answer_row))]
pub fn answer_row(release: bool, status: u8) -> Row
    ensures { result ≡ answer_row release status }
{
    match (release, status) {
        (true, 0 | 2) => Row::R12,
        (true, _) => Row::R13,
        (false, 0) => Row::R10,
        (false, _) => Row::R11,
    }
}

pub fn event(row: Row) -> u64
    ensures { result ≡ event_of row }
{
    match row {
        Row::R1 | Row::R2 | Row::R3 | Row::R4 | Row::R5 | Row::R6 | Row::R7 | Row::R8 => 1,
        Row::R10 | Row::R11 | Row::R12 | Row::R13 | Row::R14 => 2,
        Row::R9 => 3,
        Row::R15 => 0,
    }
}

// The Status of our response.
pub fn status(row: Row) -> u8
    ensures { result ≡ status_of row }
{
    match row {
        Row::R2 => 1,
        Row::R8 => 2,
        Row::R3 => 3,
        _ => 0,
    }
}

// The format of our response: of a format given, and our formats.
pub fn format(row: Row, given: u8, ours: u8) -> u8
    ensures { result ≡ format_of row given ours }
{
    match row {
        Row::R1 | Row::R4 | Row::R5 => given,
        Row::R3 => ours,
        _ => 0,
    }
}
