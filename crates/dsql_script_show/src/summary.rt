ghost use Rattle.std.specs.Prelude.{◌≡◌, reverse};
ghost use Rattle.dsql_script_show.specs.Counting.{IsBelow};
ghost use Rattle.dsql_script_show.specs.Summary.{enters, hears, is_ok, opens, replies_err, replies_ok, summary_of, with_event};

use dsql_history::{Event, Reply};

/// The counts that sum up a run.
#[derive(Clone, Copy, Debug, PartialEq, Eq)]
pub struct Summary {
    /// The lines of the script that were carried out, including skipped ones.
    pub lines: u64,
    /// The calls that entered.
    pub calls: u64,
    /// The connections that were opened.
    pub connections: u64,
    /// The driver's answers.
    pub entries: u64,
    /// The replies that report no error.
    pub oks: u64,
    /// The replies that report an error.
    pub errors: u64,
}

/// Counts one more event.
fn add(it: &mut Summary, event: &Event)
    requires { IsBelow it.old u64.MAX }
    ensures { it.new ≡ with_event event.now it.old }
{
    it.calls += u64::from(enters(event));
    it.connections += u64::from(opens(event));
    it.entries += u64::from(hears(event));
    it.oks += u64::from(replies_ok(event));
    it.errors += u64::from(replies_err(event));
}

/// Returns the summary of a history, which is oldest first, of a script with this many lines.
pub fn summary_of(lines: u64, history: &[Event]) -> Summary
    ensures { result ≡ summary_of lines (reverse history.now) }
{
    let mut it = Summary {
        lines,
        calls: 0,
        connections: 0,
        entries: 0,
        oks: 0,
        errors: 0,
    };
    for event in history {
        add(&mut it, event);
    }
    it
}

/// Returns whether a call enters.
fn enters(event: &Event) -> bool
    ensures { result ≡ enters event.now }
{
    matches!(event, Event::Entered { .. })
}

/// Returns whether a `Connect` is answered with `Done`.
fn opens(event: &Event) -> bool
    ensures { result ≡ opens event.now }
{
    match event {
        Event::Heard(entry) => entry.call.is_connect() && entry.answer.is_done(),
        _ => false,
    }
}

/// Returns whether a driver answers.
fn hears(event: &Event) -> bool
    ensures { result ≡ hears event.now }
{
    matches!(event, Event::Heard(_))
}

/// Returns whether a call replies without an error.
fn replies_ok(event: &Event) -> bool
    ensures { result ≡ replies_ok event.now }
{
    match event {
        Event::Replied { reply, .. } => is_ok(reply),
        _ => false,
    }
}

/// Returns whether a call replies with an error.
fn replies_err(event: &Event) -> bool
    ensures { result ≡ replies_err event.now }
{
    match event {
        Event::Replied { reply, .. } => !is_ok(reply),
        _ => false,
    }
}

/// Returns whether the reply is no error.
fn is_ok(reply: &Reply) -> bool
    ensures { result ≡ is_ok reply.now }
{
    matches!(
        reply,
        Reply::Ok
            | Reply::Result { .. }
            | Reply::Rows(_)
            | Reply::Truth(_)
            | Reply::Cells(_)
            | Reply::Stats(_)
    )
}
