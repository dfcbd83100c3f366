// Whether one record of a table is in range.
#![tactic(auto)]

ghost use Rattle.std.specs.Prelude.{◌≡◌, ◌+◌, ◌*◌, ◌≤◌, length, leb};
ghost use Rattle.base_layout.specs.Layout.{spare_size, spare_base};
ghost use Rattle.base_lists.specs.Seq.{bit};
ghost use Rattle.table_record.specs.Record.{role_of};
ghost use Rattle.table_layout.specs.Table.{HasRecord};
ghost use Rattle.table_ranges.specs.Ranges.{zeros};
ghost use Rattle.table_record_ok.specs.OneRecord.{tidnew_bound, sent_bound, in_range, live_ok, record_ok};

use base_layout::{HEADER_SIZE, RECORD_SIZE};
use base_octets::Number;
use table_layout::Settings;
use table_record::{Record, Role};

// Bounds as wide as the fields.
const EXIT_BOUND: u8 = base_layout::EXIT_BOUND as u8;

const CELL_SIZE: u32 = base_layout::CELL_SIZE as u32;

const PEER_BOUND: u8 = base_layout::PEER_BOUND as u8;

// The words of eight octets of a record, and of its spare octets; their last eight octets end at the exit information.
const RECORD_WORDS: usize = RECORD_SIZE / 8;

const SPARE_WORDS: usize = base_layout::SPARE_SIZE / 8;

const LAST_SPARE: usize = base_layout::EXIT_OFFSET - 8;

// Only an initiator's Invoke carries TIDnew.
fn tidnew_ok(r: Record) -> bool
    ensures { result ≡ leb (bit r.tidnew) (tidnew_bound (role_of r.state)) }
{
    !r.tidnew || r.state.role() == Role::Initiator
}

// Only an initiator counts what it sends.
fn sent_bound(role: Role, rcr_max: u8) -> u32
    ensures { result ≡ sent_bound role rcr_max }
{
    match role {
        Role::Initiator => table_record::sent_most(rcr_max),
        Role::Responder => 0,
    }
}

fn sent_ok(s: Settings, r: Record) -> bool
    ensures { result ≡ leb r.sent (sent_bound (role_of r.state) s.rcr_max) }
{
    r.sent <= sent_bound(r.state.role(), s.rcr_max)
}

#[tactic(auto, unfolding(crate::specs::OneRecord::in_range))]
fn in_range(s: Settings, r: Record) -> bool
    ensures { result ≡ in_range s r }
{
    table_ranges::tid_ok(r.tid)
        && r.rcr.0 <= s.rcr_max
        && r.aec.0 <= s.aec_max
        && r.exit_len <= EXIT_BOUND
        && r.deadline <= base_layout::DEADLINE_BOUND
        && r.len <= CELL_SIZE
        && tidnew_ok(r)
        && r.limit <= base_layout::INTERVAL_BOUND
        && table_ranges::unknown_ok(r.unknown)
        && sent_ok(s, r)
        && r.peer <= PEER_BOUND
}

fn spare_ok(t: &[u8], i: usize) -> bool
    requires { HasRecord t.now i }
    ensures { result ≡ zeros t.now (spare_base i) spare_size }
{
    let at = HEADER_SIZE + i * RECORD_SIZE;
    // The last word overlaps those before it, so that no octet is read by itself.
    table_ranges::zero_words(t, at + base_layout::SPARE_OFFSET, SPARE_WORDS)
        && u64::get(t, at + LAST_SPARE) == 0
}

// A record whose state octet isn't zero.
#[tactic(auto, unfolding(crate::specs::OneRecord::live_ok))]
fn live_ok(t: &[u8], s: Settings, i: usize) -> bool
    requires { HasRecord t.now i }
    ensures { result ≡ live_ok t.now s i }
{
    let at = HEADER_SIZE + i * RECORD_SIZE;
    t[at] <= base_layout::STATE_BOUND
        && t[at + base_layout::FLAGS_OFFSET] <= base_layout::FLAGS_BOUND
        && in_range(s, table_layout::record_at(t, i))
        && spare_ok(t, i)
}

#[tactic(auto, unfolding(crate::specs::OneRecord::record_ok))]
pub fn record_ok(t: &[u8], s: Settings, i: usize) -> bool
    requires { HasRecord t.now i }
    ensures { result ≡ record_ok t.now s i }
{
    let at = HEADER_SIZE + i * RECORD_SIZE;
    if t[at] == 0 {
        table_ranges::zero_words(t, at, RECORD_WORDS)
    } else {
        live_ok(t, s, i)
    }
}
