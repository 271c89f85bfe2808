// The event list: its scan, by refusal 9, and the event at an offset.
#![tactic(auto)]

ghost use Rattle.std.specs.Prelude.{◌≡◌, ◌+◌, ◌<◌, ◌≤◌, length};
ghost use Rattle.book.specs.Records.{byte_at, number_at};
ghost use Rattle.events.specs.Asked.{Steps};
ghost use Rattle.events.specs.Bytes.{event_span, next_event, event_cut, event_at, scan_by, scanned};

use book::{Ground, Refused};
use labels::Label;
use machine::{Event, kind};

// The bytes of an event of a kind; 0 where no event has the kind.
fn span_of(kind: u8) -> u8
    ensures { result ≡ event_span kind }
{
    if kind == kind::STEP {
        return 2;
    }
    if kind == kind::WRITE {
        return 8;
    }
    if kind == kind::RELABEL {
        return 4;
    }
    if kind == kind::NEW {
        return 8;
    }
    if kind == kind::EXEC {
        return 3;
    }
    if kind == kind::START {
        return 3;
    }
    0
}

// The event at an offset has an unknown kind or a cut body. A write is asked for by itself, so that the processor need not wait for
// a look-up before it goes on to the next event.
fn is_cut(list: &[u8], o: usize) -> bool
    requires { o < length list.now }
    ensures { result ≡ event_cut list.now o }
{
    let k = list[o];
    if k == kind::WRITE {
        if list.len() - o < 8 {
            return true;
        }
        return false;
    }
    let w = span_of(k) as usize;
    if w == 0 {
        return true;
    }
    if list.len() - o < w {
        return true;
    }
    false
}

// The offset past the event at an offset.
pub fn next_event(list: &[u8], o: usize) -> usize
    requires { o < length list.now }
    ensures { result ≡ next_event list.now o }
{
    let k = list[o];
    let w = span_of(k);
    o + w as usize
}

// The event at an offset, by the three bytes and the number behind its kind: both ways of `event_at` end here, each in a copy of its own.
#[tactic(auto, using(crate::proofs::Scans::says))]
fn event_of(list: &[u8], o: usize, x: u8, y: u8, z: u8, n: u32) -> Event
    requires { (o < length list.now) × (x ≡ byte_at list.now (o + 1)) × (y ≡ byte_at list.now (o + 2)) × (z ≡ byte_at list.now (o + 3)) × (n ≡ number_at list.now (o + 4)) }
    ensures { result ≡ event_at list.now o }
{
    match list[o] {
        kind::STEP => Event::StepOf(x),
        kind::WRITE => Event::WriteBy(Label(x), y, z, n),
        kind::RELABEL => Event::RelabelBy(Label(x), y, Label(z)),
        kind::NEW => Event::NewBy(Label(x), y, z, n),
        kind::EXEC => Event::ExecBy(Label(x), y),
        _ => Event::StartBy(Label(x), y),
    }
}

// The event at an offset. Where 8 bytes stand, one test serves them all; what lies past the end is 0.
pub fn event_at(list: &[u8], o: usize) -> Event
    requires { o < length list.now }
    ensures { result ≡ event_at list.now o }
{
    if o + 8 <= list.len() {
        let x = list[o + 1];
        let y = list[o + 2];
        let z = list[o + 3];
        return event_of(list, o, x, y, z, records::number(list, o + 4));
    }
    let x = records::byte(list, o + 1);
    let y = records::byte(list, o + 2);
    let z = records::byte(list, o + 3);
    event_of(list, o, x, y, z, records::number(list, o + 4))
}

// Steps that were passed over: the offset behind them, and how many they are.
#[derive(Clone, Copy)]
struct StepsPassed {
    at: usize,
    count: usize,
}

// Past the steps that stand from an offset on. Most events are steps, and in a loop of their own they are told by one test each.
fn pass_steps(list: &[u8], from: usize) -> StepsPassed
    requires { (from ≤ length list.now) × (length list.now ≤ 65536) }
    ensures { Steps list.now from result.at result.count }
{
    let mut o = from;
    let mut n: usize = 0;
    // Two bytes at once, up to the first event that is no step: an iterator would be asked what stands there.
    while o + 1 < list.len() {
        let k = list[o];
        if k != kind::STEP {
            return StepsPassed { at: o, count: n };
        }
        o = o + 2;
        n = n + 1;
    }
    StepsPassed { at: o, count: n }
}

// Scans an event list: its refusal by 9, or its count of events.
pub fn scan(list: &[u8]) -> Result<usize, Refused>
    ensures { scan_by result ≡ scanned list.now }
{
    if 65536 < list.len() {
        return Err(Ground::BadList.at(0));
    }
    let first = pass_steps(list, 0);
    let mut o = first.at;
    let mut n = first.count;
    // By the offset behind the steps that were passed over, and so no `for`.
    while o < list.len() {
        if is_cut(list, o) {
            return Err(Ground::BadList.at(o));
        }
        let r = pass_steps(list, next_event(list, o));
        o = r.at;
        n = n + 1 + r.count;
    }
    Ok(n)
}
