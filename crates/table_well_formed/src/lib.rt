// Whether a table is well formed, and what a call is lent fits.
#![tactic(auto)]

ghost use Rattle.std.specs.Prelude.{◌≡◌};
ghost use Rattle.base_lists.specs.Seq.{every};
ghost use Rattle.table_layout.specs.Table.{HasRecords};
ghost use Rattle.table_record_ok.specs.OneRecord.{record_ok};
ghost use Rattle.table_well_formed.specs.WellFormed.{length_ok, well_formed, sizes_ok, fitting};

use base_layout::{HEADER_SIZE, RECORD_SIZE};
use table_layout::Settings;

#[tactic(auto, unfolding(crate::specs::WellFormed::length_ok))]
pub fn length_ok(n: usize) -> bool
    ensures { result ≡ length_ok n }
{
    base_layout::TABLE_LEAST <= n
        && n <= base_layout::TABLE_MOST
        && (n - HEADER_SIZE) % RECORD_SIZE == 0
}

fn records_ok(t: &[u8], s: Settings, n: usize) -> bool
    requires { HasRecords t.now n }
    ensures { result ≡ every (record_ok t.now s) n }
{
    (0..n).all(|i| table_record_ok::record_ok(t, s, i))
}

#[tactic(auto, unfolding(crate::specs::WellFormed::well_formed))]
pub fn well_formed(t: &[u8]) -> bool
    ensures { result ≡ well_formed t.now }
{
    if !length_ok(t.len()) {
        return false;
    }
    let n = table_layout::records(t);
    table_header_ok::header_ok(t)
        && records_ok(t, table_layout::settings_of(t), n)
        && table_names_ok::names_ok(t, n)
}

#[tactic(auto, unfolding(crate::specs::WellFormed::sizes_ok))]
pub fn sizes_ok(table: usize, store: usize, output: usize) -> bool
    ensures { result ≡ sizes_ok table store output }
{
    length_ok(table)
        && store == (table - HEADER_SIZE) / RECORD_SIZE * base_layout::CELL_SIZE
        && output >= base_layout::OUTPUT_LEAST
}

// Number 1 of 01 is given exactly when this is false.
#[tactic(auto, unfolding(crate::specs::WellFormed::fitting))]
pub fn fits(table: &[u8], store: usize, output: usize) -> bool
    ensures { result ≡ fitting table.now store output }
{
    sizes_ok(table.len(), store, output) && well_formed(table)
}
