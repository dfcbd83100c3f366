// A datagram into a UI frame (TS 24.250, 5.2.8).
#![tactic(auto)]

ghost use Rattle.std.specs.Prelude.{◌≡◌, ◌+◌, ◌≤◌, length};
ghost use Rattle.base_lists.specs.Seq.{put};
ghost use Rattle.rds_datagram.specs.Put.{fit_of, plan_of, head_octets, done, put_of};

use base_numbers::Refusal;

// Whether the number and the ports fit their places; without a ports octet both ports are 0.
#[tactic(auto, unfolding(crate::specs::Put::fit_of))]
fn fit(ports: bool, source: u64, destination: u64, number: u64) -> bool
    ensures { result ≡ fit_of ports source destination number }
{
    let most = if ports { 15 } else { 0 };
    number <= 7 && source <= most && destination <= most
}

// The length of the frame of a datagram of len octets, with room for `room`; or why there is none.
#[tactic(auto, unfolding(crate::specs::Put::plan_of))]
fn putting_plan(len: usize, room: usize, ports: bool, fits: bool) -> Result<usize, Refusal>
    ensures { result ≡ plan_of len room ports fits }
{
    if room < 1523 {
        return Err(Refusal::WrongSize);
    }
    if !fits {
        return Err(Refusal::WrongSetting);
    }
    if len == 0 || 1500 < len {
        return Err(Refusal::WrongLength);
    }
    Ok(1 + usize::from(ports) + len)
}

// Stores the header of a UI frame; the place after it.
#[tactic(auto, unfolding(crate::specs::Put::head_octets))]
fn put_head(out: &mut [u8], ports: bool, source: u64, destination: u64, number: u64) -> usize
    requires { 2 ≤ length out.old }
    ensures { (result ≡ length (head_octets ports source destination number)) × (out.new ≡ put out.old 0 (head_octets ports source destination number)) }
{
    let n = (number % 8) as u8;
    if ports {
        let s = (source % 16) as u8;
        let d = (destination % 16) as u8;
        base_lists::store(out, 0, &[72 + n, s * 16 + d]);
        2
    } else {
        base_lists::store(out, 0, &[64 + n]);
        1
    }
}

// Puts a datagram into a UI frame at the start of the output.
#[tactic(auto, using(base_lists::proofs::StoresAndParts::length_put, crate::proofs::Room::roomy, crate::proofs::Room::head_length, crate::proofs::Room::two_stores), unfolding(crate::specs::Put::put_of, crate::specs::Put::put_by))]
pub fn put(
    datagram: &[u8],
    ports: bool,
    source: u64,
    destination: u64,
    number: u64,
    out: &mut [u8],
) -> Result<usize, Refusal>
    ensures { done result out.new ≡ put_of datagram.now ports source destination number out.old }
{
    let fits = fit(ports, source, destination, number);
    let n = putting_plan(datagram.len(), out.len(), ports, fits)?;
    let at = put_head(out, ports, source, destination, number);
    base_lists::store(out, at, datagram);
    Ok(n)
}
