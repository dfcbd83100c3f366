// The octets of a table: header, cached TIDs, records. docs/TABLE.md has the layout.
#![tactic(auto)]

ghost use Rattle.std.specs.Prelude.{◌≡◌, ◌+◌, ◌*◌, ◌≤◌, ◌<◌, length};
ghost use Rattle.base_layout.specs.Layout.{peers};
ghost use Rattle.table_layout.specs.Table.{HasHeader, HasRecord, count, clock_of, gen_tid_of, settings_of, fours, intervals_of, cached_of, record_at, put_record, clear_record, put_clock, put_gen_tid, put_cached, tidnew_due_of, put_tidnew_due};

use base_layout::{HEADER_SIZE, RECORD_SIZE};
use base_octets::Number;
use table_record::Record;

// 01, "What the reader carries": the settings, but for the two rows of intervals R.
#[derive(Clone, Copy)]
pub struct Settings {
    pub rcr_max: u8,
    pub aec_max: u8,
    pub a: u32,
    pub w: u32,
    // The waiting limit; 0 is the mode off.
    pub limit: u32,
}

// How many records a table has.
pub fn records(t: &[u8]) -> usize
    requires { HasHeader t.now }
    ensures { result ≡ count t.now }
{
    (t.len() - HEADER_SIZE) / RECORD_SIZE
}

#[tactic(auto, unfolding(crate::specs::Table::clock_of))]
pub fn clock_of(t: &[u8]) -> u64
    requires { HasHeader t.now }
    ensures { result ≡ clock_of t.now }
{
    u64::get(t, base_layout::CLOCK_AT)
}

#[tactic(auto, unfolding(crate::specs::Table::gen_tid_of))]
pub fn gen_tid_of(t: &[u8]) -> u16
    requires { HasHeader t.now }
    ensures { result ≡ gen_tid_of t.now }
{
    u16::get(t, base_layout::GEN_TID_AT)
}

// Whether the next Invoke of class 1 or 2 carries TIDnew.
#[tactic(auto, unfolding(crate::specs::Table::tidnew_due_of))]
pub fn tidnew_due(t: &[u8]) -> bool
    requires { HasHeader t.now }
    ensures { result ≡ tidnew_due_of t.now }
{
    t[base_layout::TIDNEW_DUE_AT] == 1
}

#[tactic(auto, unfolding(crate::specs::Table::settings_of))]
pub fn settings_of(t: &[u8]) -> Settings
    requires { HasHeader t.now }
    ensures { result ≡ settings_of t.now }
{
    Settings {
        rcr_max: t[base_layout::RCR_MAX_AT],
        aec_max: t[base_layout::AEC_MAX_AT],
        a: u32::get(t, base_layout::A_AT),
        w: u32::get(t, base_layout::W_AT),
        limit: u32::get(t, base_layout::LIMIT_AT),
    }
}

#[tactic(auto, unfolding(crate::specs::Table::fours))]
fn row_of(t: &[u8], at: usize) -> [u32; 9]
    requires { at + 36 ≤ length t.now }
    ensures { result ≡ fours 9 at t.now }
{
    std::array::from_fn(|k| u32::get(t, at + 4 * k))
}

// 01: "one of two rows of nine intervals, class 1 and class 2".
#[tactic(auto, unfolding(crate::specs::Table::intervals_of))]
pub fn intervals_of(t: &[u8]) -> [[u32; 9]; 2]
    requires { HasHeader t.now }
    ensures { result ≡ intervals_of t.now }
{
    [
        row_of(t, base_layout::ROW_1_AT),
        row_of(t, base_layout::ROW_2_AT),
    ]
}

// The cached TID of a peer: 0 is none, else the TID and 1.
#[tactic(auto, unfolding(crate::specs::Table::cached_of))]
pub fn cached_of(t: &[u8], peer: usize) -> u16
    requires { HasHeader t.now × (peer < peers) }
    ensures { result ≡ cached_of t.now peer }
{
    u16::get(t, base_layout::CACHED_AT + peer * 2)
}

pub fn record_at(t: &[u8], i: usize) -> Record
    requires { HasRecord t.now i }
    ensures { result ≡ record_at t.now i }
{
    let at = HEADER_SIZE + i * RECORD_SIZE;
    table_record::decode(&t[at..at + base_layout::FIELDS_SIZE])
}

#[tactic(auto, unfolding(crate::specs::Table::put_record))]
pub fn put_record(t: &mut [u8], i: usize, r: Record)
    requires { HasRecord t.old i }
    ensures { t.new ≡ put_record t.old i r }
{
    let w = table_record::encode(r);
    base_lists::store(t, HEADER_SIZE + i * RECORD_SIZE, &w);
}

pub fn clear_record(t: &mut [u8], i: usize)
    requires { HasRecord t.old i }
    ensures { t.new ≡ clear_record t.old i }
{
    let start = HEADER_SIZE + i * RECORD_SIZE;
    t[start..start + RECORD_SIZE].fill(0);
}

#[tactic(auto, unfolding(crate::specs::Table::put_clock))]
pub fn put_clock(t: &mut [u8], time: u64)
    requires { HasHeader t.old }
    ensures { t.new ≡ put_clock t.old time }
{
    time.put(t, base_layout::CLOCK_AT);
}

#[tactic(auto, unfolding(crate::specs::Table::put_gen_tid))]
pub fn put_gen_tid(t: &mut [u8], tid: u16)
    requires { HasHeader t.old }
    ensures { t.new ≡ put_gen_tid t.old tid }
{
    tid.put(t, base_layout::GEN_TID_AT);
}

#[tactic(auto, unfolding(crate::specs::Table::put_tidnew_due))]
pub fn put_tidnew_due(t: &mut [u8], due: bool)
    requires { HasHeader t.old }
    ensures { t.new ≡ put_tidnew_due t.old due }
{
    let w = [u8::from(due)];
    base_lists::store(t, base_layout::TIDNEW_DUE_AT, &w);
}

#[tactic(auto, unfolding(crate::specs::Table::put_cached))]
pub fn put_cached(t: &mut [u8], peer: usize, cached: u16)
    requires { HasHeader t.old × (peer < peers) }
    ensures { t.new ≡ put_cached t.old peer cached }
{
    cached.put(t, base_layout::CACHED_AT + peer * 2);
}
