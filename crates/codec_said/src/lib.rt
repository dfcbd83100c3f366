// The kind and the items that the 88 words of the C interface say.
#![tactic(auto)]

ghost use Rattle.std.specs.Prelude.{◌≡◌, ◌%◌, ◌≤◌, ◌<◌, length};
ghost use Rattle.codec_said.specs.Said.{invoke_said, kind_said, item_said};

use base_numbers::Malformed;
use codec_items::Item;
use codec_pdu::Kind;

fn octet(x: u64) -> u8
    ensures { result ≡ x % 256 }
{
    (x % 256) as u8
}

// The Invoke that words 1 to 8 say.
fn invoke_said(words: &[u64]) -> Kind
    requires { 88 ≤ length words.now }
    ensures { result ≡ invoke_said words.now }
{
    Kind::Invoke {
        gtr: words[1] == 1,
        ttr: words[2] == 1,
        rid: words[3] == 1,
        version: octet(words[5]),
        tidnew: words[6] == 1,
        up: words[7] == 1,
        class: octet(words[8]),
    }
}

// The kind that words 0 to 14 say.
#[tactic(auto, unfolding(crate::specs::Said::kind_said))]
pub fn kind_said(words: &[u64]) -> Kind
    requires { 88 ≤ length words.now }
    ensures { result ≡ kind_said words.now }
{
    let gtr = words[1] == 1;
    let ttr = words[2] == 1;
    let rid = words[3] == 1;
    let packet = octet(words[12]);
    match words[0] {
        1 => invoke_said(words),
        2 => Kind::Result { gtr, ttr, rid },
        3 => Kind::Ack {
            tve: words[9] == 1,
            rid,
        },
        4 => Kind::Abort {
            abort_type: octet(words[10]),
            reason: octet(words[11]),
        },
        5 => Kind::SegInvoke {
            gtr,
            ttr,
            rid,
            packet,
        },
        6 => Kind::SegResult {
            gtr,
            ttr,
            rid,
            packet,
        },
        7 => Kind::Nack {
            rid,
            count: octet(words[13]),
            list: words[14] as usize,
        },
        _ => Kind::Wrong(Malformed::D2),
    }
}

// The item k that its four words say.
#[tactic(auto, unfolding(crate::specs::Said::item_said))]
pub fn item_said(words: &[u64], k: usize) -> Item
    requires { (88 ≤ length words.now) × (k < 16) }
    ensures { result ≡ item_said words.now k }
{
    let at = 24 + 4 * k;
    Item {
        identity: octet(words[at]),
        long: words[at + 1] == 1,
        start: words[at + 2] as usize,
        len: words[at + 3] as usize,
    }
}
