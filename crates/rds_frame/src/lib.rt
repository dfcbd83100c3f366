// The header of a frame of the Reliable Data Service (TS 24.250, 5.2 to 5.4).
#![tactic(auto)]

ghost use Rattle.std.specs.Prelude.{◌≡◌, ◌≤◌};
ghost use Rattle.rds_frame.specs.Frame.{commanded, answered, responds, sacked, u_kind, kind_of, ports_after, head_of};

// What a frame is, with the fields that its kind alone has.
#[derive(Clone, Copy)]
pub enum Kind {
    I { a: bool, ns: u8, nr: u8, r: u8 },
    S { a: bool, nr: u8, r: u8 },
    Ui { nu: u8 },
    U { m: u8, response: bool },
}

// The header: the kind, ADS with the two ports, and the place after it.
#[derive(Clone, Copy)]
pub struct Head {
    pub kind: Kind,
    pub ads: bool,
    pub source: u8,
    pub destination: u8,
    pub end: usize,
}

// Whether a U frame with this M is a command that there is.
#[tactic(auto, unfolding(crate::specs::Frame::commanded))]
fn is_command(m: u8) -> bool
    ensures { result ≡ commanded m }
{
    matches!(m, 1 | 4 | 7 | 10 | 11)
}

// Whether a U frame with this M is a response that there is.
#[tactic(auto, unfolding(crate::specs::Frame::answered))]
fn is_answer(m: u8) -> bool
    ensures { result ≡ answered m }
{
    matches!(m, 1 | 6 | 10 | 11)
}

// Whether the bit C/R says response: a command has 0 from the UE and 1 from the network.
#[tactic(auto, unfolding(crate::specs::Frame::responds))]
pub fn says_response(cr: bool, from_network: bool) -> bool
    ensures { result ≡ responds cr from_network }
{
    cr != from_network
}

// The U frame with this M, where the table of M and direction has it.
#[tactic(auto, unfolding(crate::specs::Frame::u_kind))]
pub fn u_kind(m: u8, response: bool) -> Option<Kind>
    ensures { result ≡ u_kind m response }
{
    let known = if response {
        is_answer(m)
    } else {
        is_command(m)
    };
    known.then_some(Kind::U { m, response })
}

// Whether S1 S2 are 1 1, SACK.
fn has_sack(c: u8) -> bool
    ensures { result ≡ sacked c }
{
    c % 4 == 3
}

// The I, S or U frame whose first two octets are b and c.
#[tactic(auto, unfolding(crate::specs::Frame::kind_of))]
fn kind_of(b: u8, c: u8, from_network: bool) -> Option<Kind>
    ensures { result ≡ kind_of b c from_network }
{
    let nr = c / 32;
    let r = c / 4 % 8;
    if 64 <= b && b / 16 % 2 == 1 {
        return u_kind(c % 16, says_response(b / 4 % 2 == 1, from_network));
    }
    if !has_sack(c) {
        return None;
    }
    if b < 64 {
        Some(Kind::I {
            a: b / 32 % 2 == 1,
            ns: b % 8,
            nr,
            r,
        })
    } else {
        Some(Kind::S {
            a: b / 4 % 2 == 1,
            nr,
            r,
        })
    }
}

// The header of a kind, with the ports octet at `at` where ADS is 1; none where that octet is cut off.
#[tactic(auto, unfolding(crate::specs::Frame::ports_after))]
fn ports_after(s: &[u8], kind: Kind, ads: bool, at: usize) -> Option<Head>
    requires { at ≤ 2 }
    ensures { result ≡ ports_after s.now kind ads at }
{
    if !ads {
        return Some(Head {
            kind,
            ads,
            source: 0,
            destination: 0,
            end: at,
        });
    }
    let p = *s.get(at)?;
    Some(Head {
        kind,
        ads,
        source: p / 16,
        destination: p % 16,
        end: at + 1,
    })
}

// The header of a frame; none where it is malformed.
#[tactic(auto, unfolding(crate::specs::Frame::head_of))]
pub fn head_of(s: &[u8], from_network: bool) -> Option<Head>
    ensures { result ≡ head_of s.now from_network }
{
    let b = *s.first()?;
    if 128 <= b {
        return None;
    }
    let ads = b / 8 % 2 == 1;
    if b / 32 == 2 {
        return ports_after(s, Kind::Ui { nu: b % 8 }, ads, 1);
    }
    let kind = kind_of(b, *s.get(1)?, from_network)?;
    ports_after(s, kind, ads, 2)
}
