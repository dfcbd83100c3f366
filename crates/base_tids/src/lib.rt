// The TID with its top bit, as octets have it: one type for each direction (01, "TIDs").
#![tactic(auto)]

ghost use Rattle.std.specs.Prelude.{◌≡◌, ◌/◌, ◌%◌};
ghost use Rattle.base_tids.specs.Tids.{received_tid};

// 01, "TIDs": the TID as we write it towards the peer, its top bit set towards the initiator.
#[derive(Clone, Copy)]
pub struct SendTid(pub u16);

// 01, "TIDs": the TID as the peer writes it towards us.
#[derive(Clone, Copy)]
pub struct RcvTid(pub u16);

impl RcvTid {
    // The TID that two octets of a received PDU are, high octet first.
    pub fn received(high: u8, low: u8) -> RcvTid
        ensures { result ≡ received_tid high low }
    {
        RcvTid(u16::from_be_bytes([high, low]))
    }
}

impl SendTid {
    // The octet that is written first.
    pub fn high(self) -> u8
        ensures { result ≡ self.0 / 256 }
    {
        (self.0 / 256) as u8
    }

    // The octet that is written after it.
    pub fn low(self) -> u8
        ensures { result ≡ self.0 % 256 }
    {
        (self.0 % 256) as u8
    }
}
