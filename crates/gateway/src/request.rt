//! One request whose head was read: its reply, and what it leaves of the connection.
ghost use Rattle.std.specs.Prelude.{◌≡◌, ◌≤◌, true, false, IfOk, IfErr};
ghost use Rattle.swift_requests.specs.Asks.{asked_of};
ghost use Rattle.swift_requests.specs.Bodies.{is_unread};
ghost use Rattle.call_words.specs.Streams.{use_of};
ghost use Rattle.http_model.specs.Forms.{is_bodiless};
ghost use Rattle.call_service.specs.Serving.{Side, StaysAround};
ghost use Rattle.gateway.specs.Calls.{MayGoOn, site_of, place_of};
ghost use Rattle.gateway.specs.Requests.{IsBehindHead, Serves, Stops};
ghost use Rattle.gateway.specs.Serving.{ReadsHead};
ghost use Rattle.call_words.specs.Calls.{Ground};
ghost use Rattle.gateway.specs.Texts.{is_failing, closing_end};
ghost use Rattle.gateway.specs.Turns.{ComesTo, WritesFew};

use crate::ConnEnd;
use crate::by_head::serve_by_head;
use crate::turn::Turn;
use call_service::{Connected, Connection, ServeFault, Served};
use gw_io::{Clock, Sink, Source};
use http_model::{Head, ReplyForm};
use put_service::serve_put;
use realm_door::Door;
use realm_model::Settings;
use request_service::serve_command;
use std::alloc::Global;
use swift_auth::Users;
use swift_reply::SwiftRefusal;
use swift_requests::{Asked, BodyUse, body_use, closes, read_asked};

/// How a connection ends behind a reply that closes it, and does not say that a body broke off.
fn closing_end(asked: &Asked) -> ConnEnd
    ensures { (basis : Ground) → is_failing basis ≡ false → result ≡ closing_end asked.now basis }
{
    match asked {
        Asked::Refused(SwiftRefusal::NotBuilt | SwiftRefusal::TooLarge) => ConnEnd::Refused,
        _ => ConnEnd::Closed,
    }
}

/// Replies to what a request asks; what makes events is a task of the next actor of the pass.
fn serve_asked<'c, D: Door, C: Clock, S: Source, K: Sink>(
    alloc: Global,
    settings: &Settings,
    zone: u8,
    users: &Users,
    head: &Head,
    asked: Asked,
    plan: BodyUse,
    form: ReplyForm,
    connection: &mut Connection<'c, D, C, S, K>,
) -> Result<Served, ServeFault>
    requires goes { MayGoOn D.tells settings.now (⟦<Connection<'c, D, C, S, K> as Connected>⟧.around connection.old).settings zone (⟦<Connection<'c, D, C, S, K> as Connected>⟧.side connection.old).door (⟦<Connection<'c, D, C, S, K> as Connected>⟧.around connection.old).buffer }
    requires behind { IsBehindHead settings.now.largest (⟦<Connection<'c, D, C, S, K> as Connected>⟧.side connection.old).intake head.now }
    requires most { settings.now.largest ≤ 5368709120 }
    requires asks { asked ≡ asked_of settings.now.largest users.now head.now }
    requires used { plan ≡ use_of settings.now.largest users.now head.now }
    requires form { form.bodiless ≡ is_bodiless head.now.method }
    requires shut { is_unread (use_of settings.now.largest users.now head.now) ≡ true → form.close ≡ true }
    ensures served { IfOk result (Serves D.tells D.alone (site_of settings.now zone) head.now asked (use_of settings.now.largest users.now head.now) form (⟦<Connection<'c, D, C, S, K> as Connected>⟧.side connection.old) (⟦<Connection<'c, D, C, S, K> as Connected>⟧.side connection.new)) }
    ensures left { IfErr result (Stops D.tells D.alone (site_of settings.now zone) form asked (use_of settings.now.largest users.now head.now) (⟦<Connection<'c, D, C, S, K> as Connected>⟧.found connection.new) (⟦<Connection<'c, D, C, S, K> as Connected>⟧.side connection.old) (⟦<Connection<'c, D, C, S, K> as Connected>⟧.side connection.new)) }
    ensures around { StaysAround (⟦<Connection<'c, D, C, S, K> as Connected>⟧.around connection.old) (⟦<Connection<'c, D, C, S, K> as Connected>⟧.around connection.new) result }
{
    let read = !plan.is_unread();
    match asked {
        Asked::Put { asker, command } => {
            let waits = plan.is_awaited();
            connection.door.begin();
            serve_put(
                alloc, settings, zone, asker, command, form, waits, connection,
            )
        }
        Asked::Unfed { asker, command } => {
            connection.door.begin();
            serve_command(
                alloc, settings, zone, asker, command, form, read, connection,
            )
        }
        by_head => {
            let served = serve_by_head(
                &by_head,
                plan,
                form,
                connection.intake,
                connection.source,
                connection.sink,
                connection.buffer,
                connection.out,
            );
            drop(by_head);
            served
        }
    }
}

/// Replies to a request, the `k`th of its connection, and says whether another may follow.
pub(crate) fn serve_request<'c, D: Door, C: Clock, S: Source, K: Sink>(
    alloc: Global,
    k: u64,
    settings: &Settings,
    zone: u8,
    users: &Users,
    head: &Head,
    connection: &mut Connection<'c, D, C, S, K>,
) -> Result<Turn, ServeFault>
    requires goes { MayGoOn D.tells settings.now (⟦<Connection<'c, D, C, S, K> as Connected>⟧.around connection.old).settings zone (⟦<Connection<'c, D, C, S, K> as Connected>⟧.side connection.old).door (⟦<Connection<'c, D, C, S, K> as Connected>⟧.around connection.old).buffer }
    requires behind { IsBehindHead settings.now.largest (⟦<Connection<'c, D, C, S, K> as Connected>⟧.side connection.old).intake head.now }

    // Whatever was read before the head: with it, this is a turn.
    ensures turn { (x : Side) → ReadsHead settings.now.largest x (⟦<Connection<'c, D, C, S, K> as Connected>⟧.side connection.old) head.now
        → ComesTo D.tells D.alone (place_of settings.now zone users.now) k (⟦<Connection<'c, D, C, S, K> as Connected>⟧.found connection.new) x (⟦<Connection<'c, D, C, S, K> as Connected>⟧.side connection.new) result }
    ensures few { IfOk result WritesFew }
    ensures around { StaysAround (⟦<Connection<'c, D, C, S, K> as Connected>⟧.around connection.old) (⟦<Connection<'c, D, C, S, K> as Connected>⟧.around connection.new) result }
{
    let asked = match read_asked(alloc, users, settings.largest, head) {
        Ok(asked) => asked,
        Err(_) => return Err(ServeFault::OutOfMemory),
    };
    let plan = body_use(settings.largest, head, &asked);
    let close = closes(k, head, plan.is_unread());
    let bodiless = head.is_bodiless();
    let form = ReplyForm { bodiless, close };
    let end = closing_end(&asked);
    match serve_asked(
        alloc, settings, zone, users, head, asked, plan, form, connection,
    ) {
        Err(fault) => Err(fault),
        Ok(Served::Cut) => Ok(Turn::Over(0, ConnEnd::Cut)),
        Ok(Served::Closed) => Ok(Turn::Over(1, ConnEnd::Closed)),
        Ok(Served::Refused) => Ok(Turn::Over(1, ConnEnd::Refused)),
        Ok(Served::Replied) if close => Ok(Turn::Over(1, end)),
        Ok(Served::Replied) => Ok(Turn::Further),
    }
}
