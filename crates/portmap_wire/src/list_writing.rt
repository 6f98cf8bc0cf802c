ghost use Rattle.std.specs.Prelude.{◌≡◌, ◌++◌, codes, decimal, IfOk, OnOk};
ghost use Rattle.portmap_wire.specs.Reply.{be4};
ghost use Rattle.portmap_wire.specs.List.{names_line, names_reply, dump_line, dump_reply};

use crate::NoMemory;
use crate::list::{DumpLine, Line};
use crate::name::Name;
use itoa::Buffer;
use std::alloc::Global;
use std::marker::Model;

/// The bytes of a NAMES_REQ line beside its name, at most: the port has up to five digits.
pub const NAMES_LINE_REST: usize = 20;

/// The bytes of a DUMP_REQ line beside its name, at most: the slot has up to twenty digits.
pub const DUMP_LINE_REST: usize = 58;

/// A list's reply under construction, in one buffer. If memory runs out, the whole reply is dropped.
#[derive(Drop)]
pub struct ListReply {
    bytes: Vec<u8>,
}

impl Model for ListReply {
    ghost use Rattle.std.specs.Prelude.{List, ℕ};

    ghost Value = { List ℕ };

    ghost view = { λ r. r.bytes.items };
}

fn put_name(out: &mut Vec<u8>, head: &[u8], name: &Name, port: u16) -> Result<(), NoMemory>
    ensures { OnOk result (out.new.items ≡ out.old.items ++ head.now ++ name.now ++ codes " at port " ++ decimal port) }
{
    out.extend_from_slice(head)?;
    out.extend_from_slice(name.bytes())?;
    out.extend_from_slice(b" at port ")?;
    out.extend_from_slice(Buffer::new().format(port).as_bytes())
}

pub fn put_names_line(out: &mut Vec<u8>, name: &Name, port: u16) -> Result<(), NoMemory>
    ensures { OnOk result (out.new.items ≡ out.old.items ++ names_line (record { name = name.now; port = port })) }
{
    put_name(out, b"name ", name, port)?;
    out.push(b'\n')?;
    Ok(())
}

fn put_dump_line(
    out: &mut Vec<u8>,
    name: &Name,
    port: u16,
    slot: Option<u64>,
) -> Result<(), NoMemory>
    ensures { OnOk result (out.new.items ≡ out.old.items
        ++ dump_line (record { name = name.now; port = port; slot = slot })) }
{
    match slot {
        Some(slot) => {
            put_name(out, b"active name     ", name, port)?;
            out.extend_from_slice(b", fd = ")?;
            out.extend_from_slice(Buffer::new().format(slot).as_bytes())?;
        }
        None => {
            put_name(out, b"old/unused name ", name, port)?;
            out.extend_from_slice(b", fd = -1")?;
        }
    }
    out.push(b'\n')?;
    Ok(())
}

impl ListReply {
    /// Begins a reply with the port mapper's own port.
    pub fn new(alloc: Global, port: u16) -> Result<ListReply, NoMemory>
        ensures { IfOk result (λ r. r ≡ be4 port) }
    {
        ListReply::with_room(alloc, port, 0)
    }

    /// Begins a reply and reserves `room` bytes for its lines.
    pub fn with_room(alloc: Global, port: u16, room: usize) -> Result<ListReply, NoMemory>
        ensures { IfOk result (λ r. r ≡ be4 port) }
    {
        let head = u32::from(port).to_be_bytes();
        let mut bytes = Vec::new(alloc);
        bytes.reserve(room.saturating_add(head.len()))?;
        bytes.extend_from_slice(&head)?;
        Ok(ListReply { bytes })
    }

    pub fn with_names_line(mut self, name: &Name, port: u16) -> Result<ListReply, NoMemory>
        ensures { IfOk result (λ r. r ≡ self ++ names_line (record { name = name.now; port = port })) }
    {
        put_names_line(&mut self.bytes, name, port)?;
        Ok(self)
    }

    /// Appends a line of the reply to DUMP_REQ. The name is active if `slot` is given, and retired otherwise.
    pub fn with_dump_line(
        mut self,
        name: &Name,
        port: u16,
        slot: Option<u64>,
    ) -> Result<ListReply, NoMemory>
        ensures { IfOk result (λ r. r ≡ self ++ dump_line (record { name = name.now; port = port; slot = slot })) }
    {
        put_dump_line(&mut self.bytes, name, port, slot)?;
        Ok(self)
    }

    pub fn into_bytes(self) -> Vec<u8>
        ensures { result.items ≡ self }
    {
        self.bytes
    }
}

/// Writes the reply to NAMES_REQ of a port mapper on `port`.
pub fn write_names(alloc: Global, port: u16, lines: &[Line]) -> Result<Vec<u8>, NoMemory>
    ensures { IfOk result (λ v. v.items ≡ names_reply port lines.now) }
{
    let mut reply = ListReply::new(alloc, port)?;
    for line in lines {
        reply = reply.with_names_line(&line.name, line.port)?;
    }
    Ok(reply.into_bytes())
}

/// Writes the reply to DUMP_REQ of a port mapper on `port`.
pub fn write_dump(alloc: Global, port: u16, lines: &[DumpLine]) -> Result<Vec<u8>, NoMemory>
    ensures { IfOk result (λ v. v.items ≡ dump_reply port lines.now) }
{
    let mut reply = ListReply::new(alloc, port)?;
    for line in lines {
        reply = reply.with_dump_line(&line.name, line.port, line.slot)?;
    }
    Ok(reply.into_bytes())
}
