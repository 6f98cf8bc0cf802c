//! The response to a waiting connection, computed before any change, and the change that follows.
ghost use Rattle.std.specs.Prelude.{◌≡◌, true, false, IfOk, IfSome, OnErr, OnOk};
ghost use Rattle.portmap_feed.specs.Stream.{first_request};
ghost use Rattle.portmap_feed.specs.Seen.{seen_of};
ghost use Rattle.portmap_wire.specs.List.{dump_reply};
ghost use Rattle.portmap_wire.specs.declared.request.Request.TheVariants.{Alive};
ghost use Rattle.portmap_table.specs.Rows.{owns_name, name_status};
ghost use Rattle.portmap_core.specs.declared.connection.Phase.TheVariants.{Done};
ghost use Rattle.portmap_core.specs.declared.event.Fate.TheVariants.{Close};
ghost use Rattle.portmap_core.specs.declared.serve.Change.TheVariants.{Nothing};
ghost use Rattle.portmap_core.specs.Serving.{Serves, ServesBody, ServesReceived, dump_lines, dump_served, kill_served};
ghost use Rattle.portmap_core.specs.Serving.{list_of};
ghost use Rattle.portmap_core.specs.Serving.{names_served, port_served, stop_served};
ghost use Rattle.portmap_core.specs.Responding.{Answers, RespondsAtAnySlot, MayChange, IsResponseAtAnySlot};
ghost use Rattle.portmap_core.specs.Responding.{names_after, stopped_by};

use crate::asked::RequestContext;
use crate::connection::Phase;
use crate::event::Fate;
use portmap_feed::{Feed, Seen};
use portmap_table::{NameStatus, Table, creation_for};
use portmap_wire::{
    DUMP_LINE_REST, ListReply, Malformed, NAMES_LINE_REST, Name, NoMemory, Reg, Request,
    read_request, write_alive, write_port2,
};
use std::alloc::Global;

/// The change to the names that goes with a response.
#[derive(Drop)]
pub(crate) enum Change {
    Nothing,
    /// No change, and the reply is the list of the active names.
    Listed,
    Register { reg: Reg, creation: u32 },
    /// The name of this slot retires, and its connection is done.
    Retire(u64),
}

impl Change {
    /// Applies the change for the connection in `slot`, and returns the slot of another connection whose name retired.
    /// If memory runs out, nothing changes.
    pub(crate) fn commit(self, table: &mut Table, slot: u64) -> Result<Option<u64>, NoMemory>
        requires may { MayChange table.old.known_max table.old.names self }
        requires slot { owns_name slot table.old.names ≡ false }
        ensures names { OnOk result (table.new.names ≡ names_after table.old.known_max slot self table.old.names) }
        ensures stopped { IfOk result (λ stopped. stopped ≡ stopped_by self) }
        ensures limit { table.new.known_max ≡ table.old.known_max }
        ensures err { OnErr result (table.new ≡ table.old) }
    {
        match self {
            Change::Nothing | Change::Listed => Ok(None),
            Change::Register { reg, creation } => {
                table.admit(reg, creation, slot)?;
                Ok(None)
            }
            Change::Retire(owner) => {
                table.retire(owner);
                Ok(Some(owner))
            }
        }
    }
}

/// A response to a connection, with the change that goes with it.
#[derive(Drop)]
pub(crate) struct Response {
    pub(crate) phase: Phase,
    pub(crate) reply: Vec<u8>,
    pub(crate) fate: Fate,
    pub(crate) change: Change,
}

fn replied(reply: Vec<u8>) -> Response
    ensures text { result.reply.items ≡ reply.items }
    ensures fate { result.fate ≡ Close }
    ensures phase { result.phase ≡ Done }
    ensures change { result.change ≡ Nothing }
{
    Response {
        phase: Phase::Done,
        reply,
        fate: Fate::Close,
        change: Change::Nothing,
    }
}

/// Returns an upper bound of the bytes of all active lines, each with `rest` bytes beside its name.
fn active_room(table: &Table, rest: usize) -> usize {
    let mut room = 0usize;
    for i in 0..table.active_len() {
        if let Some(row) = table.active_at(i) {
            room = room.saturating_add(row.reg.name.bytes().len().saturating_add(rest));
        }
    }
    room
}

/// Returns an upper bound of the bytes of all retired lines, each with `rest` bytes beside its name.
fn retired_room(table: &Table, rest: usize) -> usize {
    let mut room = 0usize;
    for i in 0..table.retired_len() {
        if let Some(old) = table.retired_at(i) {
            room = room.saturating_add(old.name.bytes().len().saturating_add(rest));
        }
    }
    room
}

fn names_text(alloc: Global, port: u16, table: &Table) -> Result<Vec<u8>, NoMemory>
    ensures { IfOk result (λ v. v.items ≡ list_of port table.now.names) }
{
    let mut reply = ListReply::with_room(alloc, port, active_room(table, NAMES_LINE_REST))?;
    for i in 0..table.active_len() {
        let Some(row) = table.active_at(i) else {
            unreachable!()
        };
        let reg = &row.reg;
        reply = reply.with_names_line(&reg.name, reg.port)?;
    }
    Ok(reply.into_bytes())
}

fn dump_text(alloc: Global, port: u16, table: &Table) -> Result<Vec<u8>, NoMemory>
    ensures { IfOk result (λ v. v.items ≡ dump_reply port (dump_lines table.now.names)) }
{
    let room = active_room(table, DUMP_LINE_REST);
    let room = room.saturating_add(retired_room(table, DUMP_LINE_REST));
    let mut reply = ListReply::with_room(alloc, port, room)?;
    for i in 0..table.active_len() {
        let Some(row) = table.active_at(i) else {
            unreachable!()
        };
        let reg = &row.reg;
        reply = reply.with_dump_line(&reg.name, reg.port, Some(row.slot))?;
    }
    for k in 0..table.retired_len() {
        let Some(old) = table.retired_at(k) else {
            unreachable!()
        };
        reply = reply.with_dump_line(old.name, old.port, None)?;
    }
    Ok(reply.into_bytes())
}

impl RequestContext<'_> {
    /// Serves NAMES_REQ from the cached list, if there is one.
    fn list(&self, alloc: Global) -> Result<Response, NoMemory>
        ensures { Answers self.now result names_served }
    {
        let reply = match self.kept {
            Some(list) => Vec::from_slice(alloc, list)?,
            None => names_text(alloc, self.config.port, self.table)?,
        };
        Ok(Response {
            phase: Phase::Done,
            reply,
            fate: Fate::Close,
            change: Change::Listed,
        })
    }

    fn port(&self, alloc: Global, name: &Name) -> Result<Response, NoMemory>
        ensures { Answers self.now result (λ cfg names. port_served names name.now) }
    {
        let found = self.table.find(name).map(|row| &row.reg);
        Ok(replied(write_port2(alloc, found)?))
    }

    fn dump(&self, alloc: Global) -> Result<Response, NoMemory>
        ensures { Answers self.now result dump_served }
    {
        Ok(replied(dump_text(alloc, self.config.port, self.table)?))
    }

    fn kill(&self, alloc: Global) -> Result<Response, NoMemory>
        ensures { Answers self.now result kill_served }
    {
        if self.table.active_len() > 0 && !self.config.relaxed {
            return Ok(replied(Vec::from_slice(alloc, b"NO")?));
        }
        Ok(Response {
            phase: Phase::Done,
            reply: Vec::from_slice(alloc, b"OK")?,
            fate: Fate::Halt,
            change: Change::Nothing,
        })
    }

    fn stop(&self, alloc: Global, name: &Name) -> Result<Response, NoMemory>
        ensures { Answers self.now result (λ cfg names. stop_served cfg names name.now) }
    {
        if !self.config.relaxed {
            return Ok(replied(Vec::new(alloc)));
        }
        let Some(owner) = self.table.owner(name) else {
            return Ok(replied(Vec::from_slice(alloc, b"NOEXIST")?));
        };
        Ok(Response {
            phase: Phase::Done,
            reply: Vec::from_slice(alloc, b"STOPPED")?,
            fate: Fate::Close,
            change: Change::Retire(owner),
        })
    }

    fn name_status(&self, name: &Name) -> NameStatus
        ensures { result ≡ name_status self.now.config.known_max name.now self.now.table.now.names }
    {
        self.table.name_status(name)
    }

    /// Serves ALIVE2_REQ of a local peer.
    fn alive(&self, alloc: Global, reg: Reg) -> Result<Response, NoMemory>
        ensures { RespondsAtAnySlot self.now result (λ cfg names slot. Serves cfg names true slot (Alive reg)) }
    {
        let last = match self.name_status(&reg.name) {
            NameStatus::Active => return Ok(replied(write_alive(alloc, reg.high, 1, 0)?)),
            NameStatus::NoRoom => return Ok(replied(write_alive(alloc, reg.high, 2, 0)?)),
            NameStatus::Free(last) => last,
        };
        let creation = creation_for(self.wanted, self.table.counter(), reg.high, last);
        Ok(Response {
            phase: Phase::Holding,
            reply: write_alive(alloc, reg.high, 0, creation)?,
            fate: Fate::Stay,
            change: Change::Register { reg, creation },
        })
    }

    fn respond_to_request(&self, alloc: Global, request: Request) -> Result<Response, NoMemory>
        ensures { RespondsAtAnySlot self.now result (λ cfg names slot. Serves cfg names self.now.local slot request) }
    {
        match request {
            Request::Names => self.list(alloc),
            Request::Port(name) => self.port(alloc, &name),
            Request::Dump if self.local => self.dump(alloc),
            Request::Kill if self.local => self.kill(alloc),
            Request::Stop(name) if self.local => self.stop(alloc, &name),
            Request::Alive(reg) if self.local => self.alive(alloc, reg),
            Request::Dump | Request::Kill | Request::Stop(_) | Request::Alive(_) => {
                Ok(replied(Vec::new(alloc)))
            }
        }
    }

    fn respond_to_body(&self, alloc: Global, body: &[u8]) -> Result<Response, NoMemory>
        ensures { RespondsAtAnySlot self.now result
            (λ cfg names slot. ServesBody cfg names self.now.local slot body.now) }
    {
        match read_request(alloc, body) {
            Ok(request) => self.respond_to_request(alloc, request),
            Err(Malformed::NoMemory) => Err(NoMemory),
            Err(
                Malformed::Short
                | Malformed::UnknownTag
                | Malformed::LengthsDisagree
                | Malformed::Name(_),
            ) => Ok(replied(Vec::new(alloc))),
        }
    }

    /// Returns the response to all bytes received, and changes nothing.
    pub(crate) fn respond(
        &self,
        alloc: Global,
        feed: &Feed,
        seen: Seen,
    ) -> Result<Response, NoMemory>
        requires { seen ≡ seen_of (first_request feed.now) }
        ensures { IfOk result (λ response. IsResponseAtAnySlot
            (λ slot. ServesReceived self.now.config self.now.table.now.names self.now.local slot feed.now
            (first_request feed.now)) self.now feed.now response) }
    {
        match seen {
            Seen::More => Ok(Response {
                phase: Phase::Waiting,
                reply: Vec::new(alloc),
                fate: Fate::Stay,
                change: Change::Nothing,
            }),
            Seen::Bad(_) => Ok(replied(Vec::new(alloc))),
            Seen::Whole => {
                let Some(body) = feed.body() else {
                    unreachable!()
                };
                self.respond_to_body(alloc, body)
            }
        }
    }
}
