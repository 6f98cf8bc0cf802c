ghost use Rattle.std.specs.Prelude.{◌≡◌, ℕ, ◌<◌, Bool, true, List, [], ◌∷◌, ◌++◌, length, Option};
ghost use Rattle.std.specs.Io.KnownBytes.{Keeps};
ghost use Rattle.portmap_link.specs.Device.{PullConsumes, PutAppends, pull_is_fault, put_is_fault};
ghost use Rattle.portmap_link.specs.declared.device.Pull.{Pull};
ghost use Rattle.portmap_link.specs.declared.device.Put.{Put};

#[derive(Clone, Copy, Debug, PartialEq, Eq)]
pub enum Pull {
    /// This number of bytes was read, to the beginning of the buffer.
    Piece(usize),
    /// The input has ended.
    End,
    /// The pull would block: retry after the poll reports an event.
    Later,
    /// The device has failed permanently.
    Fault,
}

#[derive(Clone, Copy, Debug, PartialEq, Eq)]
pub enum Put {
    /// This number of bytes was written, from the beginning of the bytes offered.
    Wrote(usize),
    /// The put would block: retry after the poll reports an event.
    Later,
    /// The device has failed permanently.
    Fault,
}

/// The model of a device in contracts.
pub trait Device {
    /// The bytes left to read, or `None` if unknown.
    ghost left: { Self → Option (List ℕ) };

    /// The bytes written, or `None` if unknown.
    ghost held: { Self → Option (List ℕ) };

    ghost pulls: { Self → List Pull };

    ghost puts: { Self → List Put };

    ghost broken: { Self → Bool };
}

/// A device that gives bytes.
pub trait Input: Device {
    /// Pulls bytes once, to the beginning of the buffer. The rest of the buffer is unspecified.
    fn pull(&mut self, buffer: &mut [u8]) -> Pull
        requires { 0 < length buffer.old }
        ensures bytes { PullConsumes (Self.left self.old) (Self.left self.new) result buffer.new }
        ensures noted { Self.pulls self.new ≡ Self.pulls self.old ++ result ∷ [] }
        ensures fault { Self.broken self.new ≡ pull_is_fault result }
        ensures for_good { Self.broken self.old ≡ true → Self.broken self.new ≡ true }

        ensures held { Keeps (Self.held self.old) (Self.held self.new) }
        ensures puts { Self.puts self.new ≡ Self.puts self.old };

    /// Returns true if the device has failed. Then every call returns `Fault`.
    fn failed(&self) -> bool
        ensures { result ≡ Self.broken self.now };
}

/// A device that takes bytes.
pub trait Output: Device {
    /// Offers bytes once. The device takes a prefix of them, or no byte.
    fn put(&mut self, bytes: &[u8]) -> Put
        requires { 0 < length bytes.now }
        ensures bytes { PutAppends (Self.held self.old) (Self.held self.new) result bytes.now }
        ensures noted { Self.puts self.new ≡ Self.puts self.old ++ result ∷ [] }
        ensures fault { Self.broken self.new ≡ put_is_fault result }
        ensures for_good { Self.broken self.old ≡ true → Self.broken self.new ≡ true }

        ensures left { Keeps (Self.left self.old) (Self.left self.new) }
        ensures pulls { Self.pulls self.new ≡ Self.pulls self.old };

    /// Returns true if the device has failed. Then every call returns `Fault`.
    fn failed(&self) -> bool
        ensures { result ≡ Self.broken self.now };
}
