// The numbers that a call gives back: refusals 1 to 11 of document 01, 15 of a salvage and 16 of the Reliable Data Service, and D1 to D7 of a malformed PDU.
#![tactic(auto)]

ghost use Rattle.std.specs.Prelude.{◌≡◌};
ghost use Rattle.base_numbers.specs.Numbers.{number_of, code_of};

// Document 01, "Numbers given back", in its order; then 15, a table's header that can't be salvaged, and 16, a frame of the Reliable Data Service that is malformed.
#[derive(Clone, Copy)]
pub enum Refusal {
    WrongSize,
    WrongTime,
    PeerTooLarge,
    TooLong,
    WrongClass,
    TidInUse,
    TableFull,
    NoRecord,
    NotAllowed,
    WrongSetting,
    WrongLength,
    WrongHeader,
    WrongFrame,
}

// Document 01, "Bytes on the air", malformed.
#[derive(Clone, Copy)]
pub enum Malformed {
    // The fixed header is cut short, or a value is too wide for its place.
    D1,
    // The type is 0 or over 7.
    D2,
    // An item runs past the end.
    D3,
    // The sixteenth item has CON set.
    D4,
    // Class 3.
    D5,
    // Abort type over 1.
    D6,
    // Bytes are left after an Ack, Abort or Nack.
    D7,
}

impl From<Refusal> for u64 {
    ghost from_gives = { λ it number. number ≡ number_of it };

    fn from(it: Refusal) -> u64 {
        match it {
            Refusal::WrongSize => 1,
            Refusal::WrongTime => 2,
            Refusal::PeerTooLarge => 3,
            Refusal::TooLong => 4,
            Refusal::WrongClass => 5,
            Refusal::TidInUse => 6,
            Refusal::TableFull => 7,
            Refusal::NoRecord => 8,
            Refusal::NotAllowed => 9,
            Refusal::WrongSetting => 10,
            Refusal::WrongLength => 11,
            Refusal::WrongHeader => 15,
            Refusal::WrongFrame => 16,
        }
    }
}

impl From<Malformed> for u64 {
    ghost from_gives = { λ it number. number ≡ code_of it };

    fn from(it: Malformed) -> u64 {
        match it {
            Malformed::D1 => 101,
            Malformed::D2 => 102,
            Malformed::D3 => 103,
            Malformed::D4 => 104,
            Malformed::D5 => 105,
            Malformed::D6 => 106,
            Malformed::D7 => 107,
        }
    }
}
