//! The world as the system of a daemon: streams, polls, clock and disk.
use crate::polls::EVENTS_MOST;
use crate::wire::Watch;
use crate::world::{LISTENERS, World};
use portmap_operator::{Host, Notice, RecordFile};
use portmap_worker::{Interest, Report, Stream, System, Wake};
use std::alloc::Global;
use std::cell::{RefCell, RefMut};
use std::io;
use std::io::{ErrorKind, Read, Write};
use std::net::{IpAddr, Ipv4Addr, Ipv6Addr};
use std::rc::Rc;
use std::rt::Clock;
use std::sync::Wait;
use std::time::Duration;

/// The address of this host, and the address of another host.
const OWN: [u8; 4] = [10, 0, 0, 1];

const OTHER: [u8; 4] = [10, 0, 0, 2];

/// Returns the address of a host on a connection: alternately as IPv4, as an IPv4-mapped address, and as IPv6.
fn address(host: [u8; 4], number: usize) -> IpAddr {
    let ipv4 = Ipv4Addr::from(host);
    match number % 3 {
        0 => IpAddr::V4(ipv4),
        1 => IpAddr::V6(ipv4.to_ipv6_mapped()),
        _ => {
            let [a, b, c, d] = host.map(u16::from);
            IpAddr::V6(Ipv6Addr::new(0xFD00, 0, 0, 0, a, b, c, d))
        }
    }
}

pub type SharedWorld = Rc<RefCell<World>>;

/// Borrows the world for one call. No call overlaps another.
fn borrow(world: &SharedWorld) -> io::Result<RefMut<'_, World>> {
    Ok(world.try_borrow_mut().map_err(|_| ErrorKind::Other)?)
}

/// The daemon's end of a connection.
pub struct SimStream {
    world: SharedWorld,
    pub number: usize,
}

impl Drop for SimStream {
    fn drop(self) {
        borrow(&self.world).map_or((), |mut world| world.close(self.number));
        let SimStream {
            world: _world,
            number: _,
        } = self;
    }
}

impl Read for SimStream {
    fn read(&mut self, buffer: &mut [u8]) -> io::Result<usize> {
        Ok(borrow(&self.world)?.read(self.number, buffer)?)
    }
}

impl Write for SimStream {
    fn write(&mut self, bytes: &[u8]) -> io::Result<usize> {
        Ok(borrow(&self.world)?.write(self.number, bytes)?)
    }

    fn flush(&mut self) -> io::Result<()> {
        Ok(())
    }
}

impl Stream for SimStream {
    fn own_ip(&self) -> Option<IpAddr> {
        Some(address(OWN, self.number))
    }

    fn reset(&mut self) {
        borrow(&self.world).map_or((), |mut world| world.reset(self.number));
    }
}

/// A thread of the daemon, as its system and as its waker.
#[derive(Drop)]
pub struct SimThread {
    world: SharedWorld,
    thread: usize,
}

impl SimThread {
    pub fn of(world: &SharedWorld, thread: usize) -> Option<SimThread> {
        let world = world.clone().ok()?;
        Some(SimThread { world, thread })
    }
}

impl Wake for SimThread {
    fn wake(&self) {
        borrow(&self.world).map_or((), |mut world| world.wake(self.thread));
    }
}

impl System for SimThread {
    type Stream = SimStream;

    type Waker = SimThread;

    fn poll(&mut self, timeout_ms: u64) -> bool {
        borrow(&self.world).is_ok_and(|mut world| world.poll(self.thread, timeout_ms))
    }

    fn report(&self, place: usize) -> Option<Report> {
        let world = self.world.try_borrow().ok()?;
        world.threads.get(self.thread)?.reports.get(place).copied()
    }

    fn is_full(&self) -> bool {
        self.report(EVENTS_MOST - 1).is_some()
    }

    fn watch(
        &mut self,
        stream: &mut SimStream,
        key: usize,
        interest: Interest,
        _was_watched: bool,
    ) -> io::Result<()> {
        let (thread, both) = (self.thread, interest == Interest::Both);
        let watch = Watch { thread, key, both };
        Ok(borrow(&self.world)?.watch(stream.number, watch)?)
    }

    fn listeners(&self) -> usize {
        LISTENERS
    }

    fn listen(&mut self, place: usize) -> io::Result<()> {
        Ok(borrow(&self.world)?.listen(self.thread, place)?)
    }

    fn leave(&mut self, place: usize) {
        borrow(&self.world).map_or((), |mut world| world.leave(self.thread, place));
    }

    fn accept(&mut self, place: usize) -> io::Result<(SimStream, IpAddr)> {
        let world = self.world.clone()?;
        let (number, is_local) = borrow(&self.world)?.accept(self.thread, place)?;
        let peer = address(if is_local { OWN } else { OTHER }, number);
        Ok((SimStream { world, number }, peer))
    }
}

#[derive(Drop)]
pub struct SimFile {
    world: SharedWorld,
    number: usize,
    /// The file has the times of a recording file.
    is_of_times: bool,
}

impl Write for SimFile {
    fn write(&mut self, bytes: &[u8]) -> io::Result<usize> {
        let mut world = borrow(&self.world)?;
        let stored = if self.is_of_times {
            world.store_times(self.number, bytes)
        } else {
            world.store(self.number, bytes)
        };
        Ok(stored?)
    }

    fn flush(&mut self) -> io::Result<()> {
        Ok(())
    }
}

impl RecordFile for SimFile {
    fn cut(&mut self, size: u64) {
        let (number, size) = (self.number, size as usize);
        borrow(&self.world).map_or((), |mut world| world.cut(number, size, self.is_of_times));
    }

    fn is_plain(&self) -> bool {
        borrow(&self.world).map_or(true, |world| world.scenario.is_plain)
    }
}

/// The host of a daemon in the world.
#[derive(Drop)]
pub struct SimHost<R: Wait + Drop> {
    pub rt: R,
    pub world: SharedWorld,
}

impl<R: Wait + Drop> Wait for SimHost<R> {}

impl<R: Wait + Drop> Clock for SimHost<R> {
    fn monotonic(&self) -> io::Result<Duration> {
        let time = borrow(&self.world)?.time().ok_or(ErrorKind::Other)?;
        Ok(Duration::from_micros(time))
    }

    fn since_1970(&self) -> io::Result<Duration> {
        let time = borrow(&self.world)?.date().ok_or(ErrorKind::Other)?;
        Ok(Duration::from_micros(time))
    }

    fn sleep(&self, _duration: Duration) {}
}

impl<R: Wait + Drop> Host for SimHost<R> {
    type File = SimFile;

    fn make(&self, path: &str) -> io::Result<SimFile> {
        let world = self.world.clone()?;
        let times = path.strip_suffix(".times");
        let number = match times {
            Some(path) => borrow(&self.world)?.make_times(path)?,
            None => borrow(&self.world)?.make(path)?,
        };
        Ok(SimFile {
            world,
            number,
            is_of_times: times.is_some(),
        })
    }

    fn notify(&self, _alloc: Global, notice: &Notice<'_>) {
        borrow(&self.world).map_or((), |mut world| world.notify(notice));
    }

    fn has_memory(&self, _alloc: Global) -> bool {
        borrow(&self.world).map_or(true, |mut world| world.has_memory())
    }
}
