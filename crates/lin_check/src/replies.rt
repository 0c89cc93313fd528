//! The response that each call gets in the end.

ghost use Rattle.std.specs.Prelude.{◌≡◌, ◌<◌, IfOk, length};
ghost use Rattle.lin_check.specs.Histories.{IsWithin, latest_after, process_of, replies_of, reply_in};

use crate::event::Event;
use std::alloc::{AllocError, Global};

/// Goes back over an event, with the response of the next return of each process: the entry of the event.
fn go_back<I: Drop, R: Copy + Drop>(event: &Event<I, R>, latest: &mut Vec<Option<R>>) -> Option<R>
    requires { process_of event.now < length latest.old.items }
    ensures reply { result ≡ reply_in event.now latest.old.items }
    ensures latest { latest.new.items ≡ latest_after event.now latest.old.items }
{
    match event {
        Event::Call(p, _) => latest[*p],
        Event::Return(p, response) => {
            latest[*p] = Some(*response);
            None
        }
    }
}

/// For each call the response of its process's next return; for a return, `None`.
pub(crate) fn replies<I: Drop, R: Copy + Drop>(
    alloc: Global,
    history: &[Event<I, R>],
    n: usize,
) -> Result<Vec<Option<R>>, AllocError>
    requires { IsWithin n history.now }
    ensures { IfOk result (λ replies. replies.items ≡ replies_of history.now) }
{
    let mut latest: Vec<Option<R>> = vec![in alloc; None; n]?;
    let mut replies: Vec<Option<R>> = vec![in alloc; None; history.len()]?;
    let mut i = history.len();
    while i > 0 {
        i -= 1;
        replies[i] = go_back(&history[i], &mut latest);
    }
    Ok(replies)
}
