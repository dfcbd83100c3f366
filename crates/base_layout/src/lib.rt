// The sizes, offsets and bounds of the table and of document 01, each once for code; specs/Layout.antt has them for specs, since these are two languages.
// A contract that names the one holds it equal to the other. docs/TABLE.md shows the octets.
#![tactic(auto)]

// The header, and a record: 29 octets of fields, 19 spare, 128 of exit information.
pub const HEADER_SIZE: usize = 624;

pub const RECORD_SIZE: usize = FIELDS_SIZE + SPARE_SIZE + EXIT_BOUND;

pub const FIELDS_SIZE: usize = 29;

pub const SPARE_SIZE: usize = 19;

// Where a field of the header begins.
pub const CLOCK_AT: usize = 0;

pub const GEN_TID_AT: usize = 8;

pub const RCR_MAX_AT: usize = 10;

pub const AEC_MAX_AT: usize = 11;

pub const A_AT: usize = 12;

pub const W_AT: usize = 16;

pub const ROW_1_AT: usize = 20;

pub const ROW_2_AT: usize = 56;

pub const LIMIT_AT: usize = 92;

pub const MODES_AT: usize = 96;

pub const TIDNEW_DUE_AT: usize = 97;

pub const HEADER_SPARE_AT: usize = 98;

pub const CACHED_AT: usize = 112;

// Where a field of a record begins, from the record's begin; the state is its first octet.
pub const PEER_OFFSET: usize = 1;

pub const TID_OFFSET: usize = 2;

pub const RCR_OFFSET: usize = 4;

pub const AEC_OFFSET: usize = 5;

pub const FLAGS_OFFSET: usize = 6;

pub const EXIT_LEN_OFFSET: usize = 7;

pub const DEADLINE_OFFSET: usize = 8;

pub const LEN_OFFSET: usize = 16;

pub const LIMIT_OFFSET: usize = 20;

pub const UNKNOWN_OFFSET: usize = 24;

pub const SENT_OFFSET: usize = 25;

pub const SPARE_OFFSET: usize = FIELDS_SIZE;

pub const EXIT_OFFSET: usize = FIELDS_SIZE + SPARE_SIZE;

// 01, "What the reader carries": the bounds.
pub const TIME_BOUND: u64 = 1000000000000;

pub const INTERVAL_BOUND: u32 = 86400000;

pub const DEADLINE_BOUND: u64 = TIME_BOUND + INTERVAL_BOUND as u64;

pub const MAXIMUM_BOUND: u8 = 8;

pub const TID_BOUND: u16 = 32767;

// 01, "TIDs": they are counted modulo 32,768; with it a TID has its top bit.
pub const TID_COUNT: u16 = TID_BOUND + 1;

pub const CACHED_BOUND: u16 = TID_BOUND + 1;

pub const PEER_BOUND: u64 = 255;

pub const PEERS: usize = 256;

pub const EXIT_BOUND: usize = 128;

pub const RECORDS_BOUND: usize = 48;

pub const CELL_SIZE: usize = 1024;

pub const OUTPUT_LEAST: usize = 1028;

// The C interface: the words of an answer.
pub const ANSWER_SIZE: usize = 40;

// The octets of a table of 1 record, and of as many as there can be.
pub const TABLE_LEAST: usize = HEADER_SIZE + RECORD_SIZE;

pub const TABLE_MOST: usize = HEADER_SIZE + RECORDS_BOUND * RECORD_SIZE;

// 01, "Events": eleven live states, numbered from 1; four flags, and 02, L2, TIDnew.
pub const STATE_BOUND: u8 = 11;

pub const FLAGS_BOUND: u8 = 31;

// WAP-224, 8.4, table 25: the identities of information items are 0 to 15, and 0 to 5 are known (02, L4).
pub const UNKNOWN_LEAST: u8 = 6;

pub const IDENTITY_BOUND: u8 = 15;

// 01: "datagram or PDU 1 to 1,500".
pub const DATAGRAM_BOUND: usize = 1500;
