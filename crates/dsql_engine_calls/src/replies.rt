//! The replies that answers decide for the calls that wait for them.
ghost use Rattle.std.specs.Prelude.{◌≡◌};
ghost use Rattle.dsql_history.specs.Readers.Decisions.{bad_reply, begin_reply, done_reply, reply_to, told_of};
ghost use Rattle.dsql_history.specs.value.Arguments.{count_fault};

use dsql_history::{DriverAnswer, Reply};

/// Returns the reply that a bad connection gives a call in the try of this number. Returns `None` as long as
/// the call tries again.
pub fn bad_reply(again: bool, number: u32) -> Option<Reply>
    ensures { result ≡ bad_reply again number }
{
    if again {
        None
    } else {
        Some(Reply::BadConn(number))
    }
}

/// Returns the reply that a deciding answer gives in the try of this number.
pub fn reply_of(again: bool, number: u32, answer: DriverAnswer) -> Option<Reply>
    ensures { result ≡ reply_to again number answer }
{
    match answer {
        DriverAnswer::Result { last, affected } => Some(Reply::Result { last, affected }),
        DriverAnswer::Fail(text) => Some(Reply::Driver(text)),
        DriverAnswer::Bad => bad_reply(again, number),
        _ => None,
    }
}

/// Returns the reply that a handle's number of inputs decides for this many parameters.
pub fn count_reply(inputs: i32, count: usize) -> Option<Reply>
    ensures { result ≡ told_of (count_fault inputs count) }
{
    let Ok(want) = u32::try_from(inputs) else {
        return None;
    };
    if want as usize == count {
        return None;
    }
    let got = u32::try_from(count).unwrap_or(u32::MAX);
    Some(Reply::NumArgs { want, got })
}

/// Returns the reply of a call that asks for no more than this: a close of rows, the end of a transaction, or a
/// ping. There is no other try.
pub fn done_reply(number: u32, answer: DriverAnswer) -> Option<Reply>
    ensures { result ≡ done_reply number answer }
{
    match answer {
        DriverAnswer::Done => Some(Reply::Ok),
        DriverAnswer::Bad => Some(Reply::BadConn(number)),
        other => reply_of(false, number, other),
    }
}

/// Returns the reply of a begin.
pub fn begin_reply(again: bool, number: u32, answer: DriverAnswer) -> Option<Reply>
    ensures { result ≡ begin_reply again number answer }
{
    match answer {
        DriverAnswer::Done => Some(Reply::Ok),
        other => reply_of(again, number, other),
    }
}
