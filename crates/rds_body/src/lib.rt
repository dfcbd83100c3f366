// The information field of MANAGE_PORT (TS 24.250, 5.4.2.6).
#![tactic(auto)]

ghost use Rattle.std.specs.Prelude.{◌≡◌, ◌+◌, ◌/◌, ◌≤◌, length, get_or, drop};
ghost use Rattle.rds_body.specs.Body.{command_form, response_form, form_of, bitmap_of, optional_of, asking_of, answer_of, query_of, no_list, list_by, list_of, managed_of};

use rds_entries::Entry;

// What follows a frame's header.
#[derive(Clone, Copy)]
pub enum Body {
    // S, ERROR, DISCONNECT.
    Empty,
    // I, UI, SET_ACK_MODE, ACCEPT, SET_PARAMETERS.
    Information {
        start: usize,
        len: usize,
    },
    // The commands Reserve and Release.
    Asking {
        action: u8,
        source: u8,
        destination: u8,
        start: usize,
        len: usize,
        format: u8,
    },
    // The responses Reserve and Release.
    Answer {
        action: u8,
        format: u8,
        status: u8,
    },
    // The command Query, perhaps with a bitmap of ports.
    Query {
        action: u8,
        ports: Option<u16>,
    },
    // The response Query and the command Notify: their entries lie beside.
    List {
        action: u8,
        ports: Option<u16>,
        count: u8,
    },
}

// A body and the entries of its list.
#[derive(Clone, Copy)]
pub struct Managed {
    pub body: Body,
    pub list: [Entry; 15],
}

// How the body of an Action is laid out.
#[derive(Clone, Copy)]
pub enum Form {
    Asking,
    Answer,
    Query,
    List,
}

#[tactic(auto, unfolding(crate::specs::Body::command_form))]
fn command_form(action: u8) -> Option<Form>
    ensures { result ≡ command_form action }
{
    match action {
        1 | 2 | 5 => Some(Form::Asking),
        3 | 6 => Some(Form::Query),
        4 | 7 => Some(Form::List),
        _ => None,
    }
}

#[tactic(auto, unfolding(crate::specs::Body::response_form))]
fn response_form(action: u8) -> Option<Form>
    ensures { result ≡ response_form action }
{
    match action {
        1 | 2 | 5 => Some(Form::Answer),
        3 | 6 => Some(Form::List),
        _ => None,
    }
}

pub fn form_of(action: u8, response: bool) -> Option<Form>
    ensures { result ≡ form_of action response }
{
    if response {
        response_form(action)
    } else {
        command_form(action)
    }
}

// The bitmap of ports that s begins with, as a number: port p counts 2^p.
fn bitmap(s: &[u8]) -> u16
    requires { 2 ≤ length s.now }
    ensures { result ≡ bitmap_of s.now }
{
    u16::from(s[0]) / 2 * 2 + u16::from(s[1]) * 256
}

// The bitmap that s is, if it is anything; none where it is neither.
#[tactic(auto, unfolding(crate::specs::Body::optional_of))]
fn optional_ports(s: &[u8]) -> Option<Option<u16>>
    ensures { result ≡ optional_of s.now }
{
    match s.len() {
        0 => Some(None),
        2 => Some(Some(bitmap(s))),
        _ => None,
    }
}

// The command Reserve or Release in t, whose place in the frame is `at`.
#[tactic(auto, using(rds_lists::proofs::ListFacts::rest), unfolding(crate::specs::Body::asking_of))]
fn asking_in(t: &[u8], at: usize, action: u8) -> Option<Body>
    requires { at + length t.now ≤ 1523 }
    ensures { result ≡ asking_of t.now at action }
{
    if t.len() < 2 {
        return None;
    }
    let len = rds_entries::application_length(&t[2..])?;
    let end = 2 + len;
    if t.len() != end + usize::from(action == 5) {
        return None;
    }
    Some(Body::Asking {
        action,
        source: t[1] / 16,
        destination: t[1] % 16,
        start: at + 2,
        len,
        format: if action == 5 { t[end] % 8 } else { 0 },
    })
}

// The response Reserve or Release in t.
#[tactic(auto, unfolding(crate::specs::Body::answer_of))]
fn answer_in(t: &[u8], action: u8) -> Option<Body>
    ensures { result ≡ answer_of t.now action }
{
    let end = if action == 5 { 3 } else { 2 };
    if t.len() != end || 4 <= t[end - 1] {
        return None;
    }
    Some(Body::Answer {
        action,
        format: if action == 5 { t[1] % 8 } else { 0 },
        status: t[end - 1],
    })
}

// The command Query in t.
#[tactic(auto, using(rds_lists::proofs::ListFacts::rest), unfolding(crate::specs::Body::query_of))]
fn query_in(t: &[u8], action: u8) -> Option<Body>
    requires { 1 ≤ length t.now }
    ensures { result ≡ query_of t.now action }
{
    let ports = optional_ports(&t[1..])?;
    Some(Body::Query { action, ports })
}

// A body without a list.
#[tactic(auto, unfolding(crate::specs::Body::no_list))]
pub fn no_list(body: Body) -> Managed
    ensures { result ≡ no_list body }
{
    Managed {
        body,
        list: rds_entries::none(),
    }
}

// The list whose entries end at the place `end` of t.
fn list_after(t: &[u8], end: usize, action: u8, list: [Entry; 15]) -> Option<Managed>
    requires { (1 ≤ length t.now) × (end ≤ length t.now) }
    ensures { result ≡ list_by action (get_or t.now 0 0 / 16) list (optional_of (drop end t.now)) }
{
    let count = t[0] / 16;
    let ports = optional_ports(&t[end..])?;
    Some(Managed {
        body: Body::List {
            action,
            ports,
            count,
        },
        list,
    })
}

// The list in t, whose place in the frame is `at`.
#[tactic(auto, using(rds_lists::proofs::ListFacts::rest, rds_entries::proofs::Walked::walk_inside), unfolding(crate::specs::Body::list_of))]
fn listed(t: &[u8], at: usize, action: u8) -> Option<Managed>
    requires { (1 ≤ length t.now) × (at + length t.now ≤ 1523) }
    ensures { result ≡ list_of t.now at action }
{
    let count = usize::from(t[0] / 16);
    let found = rds_entries::walk(&t[1..], at + 1, 5 < action, count, 0, rds_entries::none())?;
    list_after(t, found.end - at, action, found.list)
}

// The information field t of MANAGE_PORT, whose place in the frame is `at`.
#[tactic(auto, unfolding(crate::specs::Body::managed_of))]
pub fn manage(t: &[u8], at: usize, response: bool) -> Option<Managed>
    requires { at + length t.now ≤ 1523 }
    ensures { result ≡ managed_of t.now at response }
{
    let action = *t.first()? % 16;
    let body = match form_of(action, response)? {
        Form::Asking => asking_in(t, at, action)?,
        Form::Answer => answer_in(t, action)?,
        Form::Query => query_in(t, action)?,
        Form::List => return listed(t, at, action),
    };
    Some(no_list(body))
}
