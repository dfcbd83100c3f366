// Document 01's bench cases that have no star: two lengths in a datagram, then class 1 requests at a table of 48 records whose RCR_MAX is 0.
#![tactic(auto)]

use std::io;

fn print_title(rt: &impl Print) -> io::Result<()> {
    println!(rt;
        "lengths 127, 128; data 1,025, then 49 times 1,024; RCR_MAX 0, interval over: fired, sent"
    )
}

// What stands before a PDU of 127 octets in a datagram, and before one of 128.
fn print_lengths(rt: &impl Print) -> io::Result<()> {
    let mut out = [0u8; 1500];
    let mut answer = [0u64; 40];
    wtp::wtp_join(&[9u8; 255], &[127u64, 128], &mut out, &mut answer);
    println!(rt; "{:02x}", out[1])?;
    println!(rt; "{:02x}{:02x}", out[129], out[130])
}

// RCR_MAX and AEC_MAX 0, every interval 1,000.
fn settings() -> [u64; 32] {
    [
        0, 0, 1000, 1000, 1000, 1000, 1000, 1000, 1000, 1000, 1000, 1000, 1000, 1000, 1000, 1000,
        1000, 1000, 1000, 1000, 1000, 1000, 0, 0, 0, 0, 0, 0, 0, 0, 0, 0,
    ]
}

fn make_fresh(table: &mut [u8]) {
    wtp::wtp_fresh(table, &settings(), 7);
}

fn request(table: &mut [u8], store: &mut [u8], data: &[u8]) -> u64 {
    let mut out = [0u8; 1028];
    let mut answer = [0u64; 40];
    wtp::wtp_request(table, store, &mut out, &mut answer, 0, 5, 1, 0, data)
}

// A request of 1,025 octets, then 49 of 1,024.
fn print_requests(rt: &impl Print, table: &mut [u8], store: &mut [u8]) -> io::Result<()> {
    let data = [0u8; 1025];
    let mut len = 1025;
    for _ in 0u64..50 {
        print!(rt; "{}", request(&mut *table, &mut *store, &data[..len]))?;
        len = 1024;
    }
    println!(rt)
}

// Whether a record fired when its interval was over, and the octets that it then sent.
fn print_timer(rt: &impl Print, table: &mut [u8], store: &mut [u8]) -> io::Result<()> {
    let mut out = [0u8; 1028];
    let mut answer = [0u64; 40];
    wtp::wtp_timer(table, store, &mut out, &mut answer, 1000);
    println!(rt; "{}", answer[3])?;
    println!(rt; "{}", answer[0])
}

fn main(rt: HostRuntime) -> io::Result<()> {
    let mut table = [0u8; 9072];
    let mut store = [0u8; 49152];
    print_title(&rt)?;
    print_lengths(&rt)?;
    make_fresh(&mut table);
    print_requests(&rt, &mut table, &mut store)?;
    print_timer(&rt, &mut table, &mut store)
}
