// What is counted of the replies.
ghost use Rattle.std.specs.Prelude.{◌≡◌, ◌≢◌, ◌<◌, ◌≤◌, ◌+◌, ◌^◌, ℕ, List, IfOk, IfSome, OnErr, OnOk, length, position};
ghost use Rattle.page_spec.specs.declared.Outcome.{Outcome};
ghost use Rattle.page_spec.specs.declared.Outcome.TheVariants.{Page};
ghost use Rattle.http_spec.specs.Replies.{no_memory_bytes};
ghost use Rattle.command_trial.specs.Replies as specs;
ghost use Rattle.trial_spec.specs.Numbers.{counts_of};

use mem_wire::SteadyWire;
use sd_value::NoMemory;
use trial_spec::Counts;

/// What a reply is.
#[derive(Clone, Copy)]
enum Reply {
    /// A page of n bytes.
    Page(u64),
    Missing,
    /// The page has a fault.
    Fault,
    /// Memory ran out for the reply.
    Short,
}

// What is before and behind the length in the head of a reply with a page.
const PAGE_FRONT: &[u8] =
    b"HTTP/1.1 200 OK\r\nContent-Type: text/html; charset=utf-8\r\nContent-Length: ";

const PAGE_BACK: &[u8] = b"\r\nConnection: close\r\n\r\n";

// Where the first line of these bytes ends.
fn line_end(bytes: &[u8]) -> Option<usize>
    ensures at { result ≡ position specs.is_return bytes.now }
    ensures within { IfSome result (λ at. at < length bytes.now) }
{
    bytes.iter().position(|byte| *byte == b'\r')
}

fn length_of(bytes: &[u8]) -> u64
    ensures value { result ≡ length bytes.now }
    ensures small { result < 2 ^ 64 }
{
    bytes.len() as u64
}

// How many bytes the page in a reply has: those behind the head.
fn body_length(reply: &[u8]) -> u64
    ensures { (text : List ℕ) → reply.now ≡ specs.reply_to (Page text) → result ≡ length text }
{
    let length = length_of(reply);
    let Some(rest) = reply.strip_prefix(PAGE_FRONT) else {
        return 0;
    };
    match line_end(rest) {
        Some(digits) => {
            length.saturating_sub((PAGE_FRONT.len() + digits + PAGE_BACK.len()) as u64)
        }
        None => 0,
    }
}

fn reply_of(bytes: &[u8]) -> Reply
    ensures shown { (outcome : Outcome) → bytes.now ≡ specs.reply_to outcome
        → result ≡ specs.shown outcome }
    ensures short { bytes.now ≡ no_memory_bytes → result ≡ Reply.Short }
{
    if bytes.starts_with(b"HTTP/1.1 200") {
        Reply::Page(body_length(bytes))
    } else if bytes.starts_with(b"HTTP/1.1 404") {
        Reply::Missing
    } else if bytes.starts_with(b"HTTP/1.1 503") {
        Reply::Short
    } else {
        Reply::Fault
    }
}

// The counts with one reply more. Before it there were at most 40,061.
fn with_reply(counts: Counts, reply: Reply) -> Result<Counts, NoMemory>
    requires { specs.AreAtMost 40061 counts }
    ensures counted { IfOk result (λ after. (outcome : Outcome) → reply
        ≡ specs.shown outcome → after ≡ specs.with_outcome counts outcome) }
    ensures grows { IfOk result (specs.GrowsByOne counts) }
    ensures whole { OnOk result (reply ≢ Reply.Short) }
    ensures short { OnErr result (reply ≡ Reply.Short) }
{
    match reply {
        Reply::Page(bytes) => Ok(Counts {
            ok: counts.ok + 1,
            missing: counts.missing,
            bytes: counts.bytes + u128::from(bytes),
        }),
        Reply::Missing => Ok(Counts {
            ok: counts.ok,
            missing: counts.missing + 1,
            bytes: counts.bytes,
        }),
        Reply::Fault => Ok(counts),
        Reply::Short => Err(NoMemory),
    }
}

// The counts with the reply to one connection more.
fn with_connection(counts: Counts, wire: &SteadyWire, number: u64) -> Result<Counts, NoMemory>
    requires { specs.AreAtMost 40061 counts }
    ensures counted { IfOk result (λ after. (outcome : Outcome)
        → specs.taken_by wire.now number
        ≡ specs.reply_to outcome → after ≡ specs.with_outcome counts outcome) }
    ensures grows { IfOk result (specs.GrowsByOne counts) }
    ensures whole { OnOk result (specs.taken_by wire.now number ≢ no_memory_bytes) }
{
    with_reply(counts, reply_of(wire.taken(number)))
}

/// Counts the replies to the connections from 1 to this number, each of which asked for one page.
/// # Errors
/// Out of memory, for a send or for a reply.
pub(crate) fn count(wire: &SteadyWire, connections: u64) -> Result<Counts, NoMemory>
    requires { connections ≤ 40062 }
    ensures counted { IfOk result (λ counts. (outcomes : List Outcome) → length outcomes
        ≡ connections
        → specs.AreReplied wire.now outcomes → counts ≡ counts_of outcomes) }
    ensures fine { OnOk result ((i : ℕ) → i < connections → specs.IsFine wire.now (i + 1)) }
{
    if wire.short() {
        return Err(NoMemory);
    }
    let mut counts = Counts {
        ok: 0,
        missing: 0,
        bytes: 0,
    };
    for i in 0..connections {
        counts = with_connection(counts, wire, i + 1)?;
    }
    Ok(counts)
}
