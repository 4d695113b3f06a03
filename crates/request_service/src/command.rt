//! Which request a command is.
ghost use Rattle.std.specs.Prelude.{◌≡◌, true, false, length, IfOk, IfErr};
ghost use Rattle.swift_requests.specs.declared.asked.Asked.TheVariants.{Unfed};
ghost use Rattle.call_service.specs.Bodies.{dropped_if};
ghost use Rattle.call_service.specs.Serving.{MayServe, IsServed, IsStopped, StaysAround};
ghost use Rattle.request_service.specs.Requests.{site_of, FitsFirst};

use crate::account::accounts;
use crate::container::containers;
use crate::listing::Listing;
use crate::request::Request;
use crate::serve::serve_unfed;
use call_service::{Connected, Connection, ServeFault, Served};
use gw_io::{Clock, Sink, Source};
use http_model::ReplyForm;
use realm_door::{Door, Staged, Stepping};
use realm_model::Settings;
use std::alloc::Global;
use swift_requests::UnfedCommand;
use task_account::AccountRequest;
use task_container::ContainerRequest;
use task_get::{GetRequest, GetTask};
use task_list::ListRequest;
use task_words::Asker;

/// Serves the request of these stages, as `serve_unfed` says.
fn serve_stages<'c, T: Request + Drop, D: Door, C: Clock, S: Source, K: Sink>(
    alloc: Global,
    stages: T,
    form: ReplyForm,
    read: bool,
    connection: &mut Connection<'c, D, C, S, K>,
) -> Result<Served, ServeFault>
    requires begins { T.begins stages }
    requires fits { FitsFirst (D.settings connection.old.door.now) (T.question (T.command stages)).zone (T.fits stages) }
    requires ready { MayServe D.tells (D.settings connection.old.door.now) (T.question (T.command stages)).zone
        (D.told connection.old.door.now) connection.old.intake.now (length connection.old.buffer.now) }
    requires shut { read ≡ false → form.close ≡ true }
    ensures served { IfOk result (IsServed D.tells D.alone (site_of (D.settings connection.old.door.now) (T.question (T.command stages))) form
        (T.question (T.command stages)).asked (dropped_if read)
        (⟦<Connection<'c, D, C, S, K> as Connected>⟧.side connection.old) (⟦<Connection<'c, D, C, S, K> as Connected>⟧.side connection.new)) }
    ensures stopped { IfErr result (IsStopped D.tells D.alone (site_of (D.settings connection.old.door.now) (T.question (T.command stages))) form
        (T.question (T.command stages)).asked (dropped_if read) (⟦<Connection<'c, D, C, S, K> as Connected>⟧.found connection.new)
        (⟦<Connection<'c, D, C, S, K> as Connected>⟧.side connection.old) (⟦<Connection<'c, D, C, S, K> as Connected>⟧.side connection.new)) }
    ensures around { StaysAround (⟦<Connection<'c, D, C, S, K> as Connected>⟧.around connection.old) (⟦<Connection<'c, D, C, S, K> as Connected>⟧.around connection.new) result }
{
    let mut task = Stepping::new(stages);
    let served = serve_unfed(alloc, &mut task, form, read, connection);
    drop(task);
    served
}

/// Serves one command that wants no body, whose head was read, as the door's present actor, which made no event, in
/// this zone and for this asker, as `serve_unfed` says. The settings are the door's. At want of memory for the task of
/// a request on a container or an account nothing was done.
pub fn serve_command<'c, D: Door, C: Clock, S: Source, K: Sink>(
    alloc: Global,
    settings: &Settings,
    zone: u8,
    asker: Asker,
    command: UnfedCommand,
    form: ReplyForm,
    read: bool,
    connection: &mut Connection<'c, D, C, S, K>,
) -> Result<Served, ServeFault>
    requires same { D.settings connection.old.door.now ≡ settings.now }
    requires ready { MayServe D.tells (D.settings connection.old.door.now) zone (D.told connection.old.door.now) connection.old.intake.now (length connection.old.buffer.now) }
    requires shut { read ≡ false → form.close ≡ true }
    ensures served { IfOk result (IsServed D.tells D.alone (record { settings = D.settings connection.old.door.now; zone = zone }) form (Unfed asker command) (dropped_if read)
        (⟦<Connection<'c, D, C, S, K> as Connected>⟧.side connection.old) (⟦<Connection<'c, D, C, S, K> as Connected>⟧.side connection.new)) }
    ensures stopped { IfErr result (IsStopped D.tells D.alone (record { settings = D.settings connection.old.door.now; zone = zone }) form (Unfed asker command) (dropped_if read)
        (⟦<Connection<'c, D, C, S, K> as Connected>⟧.found connection.new)
        (⟦<Connection<'c, D, C, S, K> as Connected>⟧.side connection.old) (⟦<Connection<'c, D, C, S, K> as Connected>⟧.side connection.new)) }
    ensures around { StaysAround (⟦<Connection<'c, D, C, S, K> as Connected>⟧.around connection.old) (⟦<Connection<'c, D, C, S, K> as Connected>⟧.around connection.new) result }
{
    match command {
        UnfedCommand::Get(get) => {
            let stages = GetTask::new(GetRequest { zone, asker, get });
            serve_stages(alloc, stages, form, read, connection)
        }
        UnfedCommand::Listing(command, listing) => {
            let request = ListRequest {
                zone,
                asker,
                command,
            };
            let stages = Listing::new(request, listing);
            serve_stages(alloc, stages, form, read, connection)
        }
        UnfedCommand::Container(command) => {
            let request = ContainerRequest {
                zone,
                asker,
                command,
            };
            let Ok(stages) = containers(settings, request) else {
                return Err(ServeFault::OutOfMemory);
            };
            serve_stages(alloc, stages, form, read, connection)
        }
        UnfedCommand::Account(command, listing) => {
            let Asker { account, user } = asker;
            let request = AccountRequest {
                zone,
                account,
                command,
            };
            let Ok(stages) = accounts(alloc, request, user, listing) else {
                return Err(ServeFault::OutOfMemory);
            };
            serve_stages(alloc, stages, form, read, connection)
        }
    }
}
