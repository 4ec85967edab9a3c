//! The notices that wait to be handed out.
ghost use Rattle.std.specs.Prelude.{◌≡◌, ◌+◌, ◌≤◌, ◌++◌};
ghost use Rattle.std.specs.Prelude.{IfOk, IfSome, length, vec_len, vec_capacity};
ghost use Rattle.house.specs.Lists.{notices_in};
ghost use Rattle.house.specs.News.{kept_without};
ghost use Rattle.house.specs.Waiting.{KeepsRoom, clients_of, first_for, without_first, of_others};

use connected_clients::Notice;
use player_events::Outcome;
use std::alloc::{AllocError, Global};

/// Takes out the first notice of the client.
pub(crate) fn take_first(notices: &mut Vec<Notice>, client: u32) -> Option<Notice>
    ensures first { result ≡ first_for client notices.old.items }
    ensures own { IfSome result (λ notice. notice.client ≡ client) }
    ensures others { notices.new.items ≡ without_first client notices.old.items }
    ensures room { KeepsRoom notices.old notices.new }
{
    for i in 0..notices.len() {
        if notices[i].client == client {
            return Some(notices.remove(i));
        }
    }
    None
}

/// The clients that notices are for, in the order of the notices.
pub(crate) fn addressees(alloc: Global, notices: &[Notice]) -> Result<Vec<u32>, AllocError>
    ensures { IfOk result (λ clients. clients.items ≡ clients_of notices.now) }
{
    notices.iter().map(|notice| notice.client).collect(alloc)
}

/// Puts these after the others. There is room.
pub(crate) fn put_all(notices: &mut Vec<Notice>, new: &[Notice])
    requires { vec_len notices.old + length new.now ≤ vec_capacity notices.old }
    ensures put { notices.new.items ≡ notices.old.items ++ new.now }
    ensures room { vec_capacity notices.new ≡ vec_capacity notices.old }
{
    for notice in new {
        notices.push_reserved(*notice);
    }
}

/// Puts the notices of several events after the others. There is room.
pub(crate) fn put_each(notices: &mut Vec<Notice>, outcomes: &[Outcome])
    requires { vec_len notices.old + length (notices_in outcomes.now) ≤ vec_capacity notices.old }
    ensures { notices.new.items ≡ notices.old.items ++ notices_in outcomes.now }
{
    for outcome in outcomes {
        put_all(notices, outcome.notices());
    }
}

/// Drops the notices of the client.
fn drop_all(notices: &mut Vec<Notice>, client: u32)
    ensures others { notices.new.items ≡ of_others client notices.old.items }
    ensures room { KeepsRoom notices.old notices.new }
{
    notices.retain(|n| n.client != client);
}

/// Drops the notices of a client that goes, if one goes.
pub(crate) fn drop_gone(notices: &mut Vec<Notice>, gone: Option<u32>)
    ensures others { notices.new.items ≡ kept_without gone notices.old.items }
    ensures room { KeepsRoom notices.old notices.new }
{
    if let Some(client) = gone {
        drop_all(notices, client);
    }
}
