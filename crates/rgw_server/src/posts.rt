//! The passes of a cell, one for each thread.
ghost use Rattle.std.specs.Prelude.{◌≡◌, All, IfOk, IfSome};
ghost use Rattle.rgw_server.specs.Posts.{IsFresh};

use gw_io::Clock;
use realm_core::Realm;
use std::alloc::{AllocError, Global};
use turn_cell::{Pass, Turn};

/// What a thread begins with.
#[derive(Drop)]
pub(crate) struct Post<C> {
    pub pass: Pass<Realm>,
    pub clock: C,
}

/// A pass that is split from one which has seen no event either; none where that has one number left.
fn next_pass(cell: &Turn<Realm>, first: &mut Pass<Realm>) -> Option<Pass<Realm>>
    requires { IsFresh cell.now first.old }
    ensures left { IsFresh cell.now first.new }
    ensures right { IfSome result (IsFresh cell.now) }
{
    if first.room() > 1 {
        Some(cell.split(first, 1))
    } else {
        None
    }
}

/// So many posts, their passes split from the first one.
pub(crate) fn make_posts<C: Clock>(
    alloc: Global,
    cell: &Turn<Realm>,
    first: &mut Pass<Realm>,
    clock: &C,
    count: u32,
) -> Result<Vec<Post<C>>, AllocError>
    requires { IsFresh cell.now first.old }
    ensures first { IsFresh cell.now first.new }
    ensures posts { IfOk result (λ posts. All (λ post. IsFresh cell.now post.pass) posts.items) }
{
    let mut posts = Vec::new(alloc);
    for _ in 0..count {
        let Some(pass) = next_pass(cell, first) else {
            break;
        };
        posts.push(Post {
            pass,
            clock: clock.twin(),
        })?;
    }
    Ok(posts)
}
