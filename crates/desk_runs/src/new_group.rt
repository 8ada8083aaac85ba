// What a new group adds.

ghost use Rattle.std.specs.Prelude.{◌≡◌, ◌+◌, ◌≤◌, ◌<◌, ◌^◌, ◌++◌, replicate, IfOk, OnOk, OnErr, length};
ghost use Rattle.desk_runs.specs.Adding.{requests_from};

use crate::group::{Ask, Request};
use plan_base::{ListOf, RequestNo, RequestState};
use std::alloc::{AllocError, Global};

/// Pending requests for what is asked, with numbers from the first on.
pub(crate) fn pending_requests(
    alloc: Global,
    first: u32,
    asks: &[Ask],
) -> Result<ListOf<Request>, AllocError>
    requires { first + length asks.now ≤ 2 ^ 32 }
    ensures { IfOk result (λ requests. requests ≡ requests_from first asks.now) }
{
    let mut requests = Vec::new(alloc);
    for (i, ask) in asks.iter().enumerate() {
        requests.push(Request {
            number: RequestNo(first + i as u32),
            seconds: ask.seconds,
            last: ask.last,
            state: RequestState::Pending,
        })?;
    }
    Ok(ListOf::from_vec(requests))
}

/// Adds the place of a group for each of its requests. Fails only for want of memory, and then changes nothing.
pub(crate) fn push_owners(
    owners: &mut Vec<usize>,
    place: usize,
    count: usize,
) -> Result<(), AllocError>
    requires { length owners.old.items + count < 2 ^ 32 }
    ensures ok { OnOk result (owners.new.items ≡ owners.old.items ++ replicate count place) }
    ensures err { OnErr result (owners.new.items ≡ owners.old.items) }
{
    owners.resize(owners.len() + count, place)
}
