ghost use Rattle.std.specs.Prelude.{◌≡◌, ◌<◌, ◌≤◌, ◌++◌, ℕ, List, false, length, take, nat_eq, codes, IsTrue, IfOk, OnErr, is_err, IsSome};
ghost use Rattle.std.specs.Io.KnownBytes.{ReadConsumes, WriteAppends};
ghost use Rattle.std.specs.List.{starts_with};
ghost use Rattle.link_http.specs.Wire.{AsksNothing, Counts, has_failed, Hears, Sends};
ghost use Rattle.tcp_dialer.specs.Silent.{silent};
ghost use Rattle.tcp_dialer.specs.Stream.{told_by, wire_of};

use link_http::Dialer;
use std::io::{self, ErrorKind, Read, Write};
use std::net::{Net, OpenStream, TcpStream, ToSocketAddrs};
use std::rt::Clock;
use std::time::{Duration, Instant};
use text_base::{Failed, FolderFault};

/// The most seconds that all connects of a dial take together, and that one send or recv takes.
const PATIENCE: u64 = 20;

/// Opens connections over sockets. It tells nothing but its count of faults; what its stream tells
/// of its bytes is kept by each call.
#[derive(Drop)]
pub struct TcpDialer<'a, N: Net + Clock> {
    net: &'a N,
    stream: Option<N::Stream>,
    faults: u64,
}

impl<'a, N: Net + Clock> TcpDialer<'a, N> {
    /// Without a connection.
    pub fn new(net: &'a N) -> Self
        ensures { wire_of result ≡ silent 0 false }
    {
        TcpDialer {
            net,
            stream: None,
            faults: 0,
        }
    }

    /// How often it failed.
    pub fn faults(&self) -> u64
        ensures { result ≡ (wire_of self.now).faults }
    {
        self.faults
    }
}

impl<N: Net + Clock> Dialer for TcpDialer<'_, N> {
    ghost wire = { wire_of };

    fn dial(&mut self, host: &str, port: u16) -> Result<(), FolderFault> {
        self.stream = None;
        match connect(self.net, &(plain_host(host), port)) {
            Ok(stream) => {
                self.stream = Some(stream);
                Ok(())
            }
            Err(_) => {
                self.faults = self.faults.saturating_add(1);
                Err(FolderFault::Failed)
            }
        }
    }

    fn send(&mut self, bytes: &[u8]) -> Result<usize, FolderFault>
        requires connected { IsSome (wire_of self.old).line }
        requires some { 0 < length bytes.now }
        ensures counts { Counts (wire_of self.old) (wire_of self.new) (has_failed result) }
        ensures connected { IsSome (wire_of self.new).line }
        ensures sent { IfOk result (λ n. (0 < n) × (n ≤ length bytes.now)) }
        ensures kept { IsTrue (wire_of self.new).tells
            → OnErr result (AsksNothing (wire_of self.old) (wire_of self.new)) }
        ensures told { IsTrue (wire_of self.new).tells
            → IfOk result (λ n. Sends (take n bytes.now) (wire_of self.old) (wire_of self.new)) }
        ensures written { WriteAppends (told_by N.Stream.Write.contents self.old)
            (told_by N.Stream.Write.contents self.new) result bytes.now }
    {
        let Some(stream) = &mut self.stream else {
            unreachable!()
        };
        match stream.write(bytes) {
            Ok(sent) if sent > 0 => Ok(sent),
            _ => {
                self.faults = self.faults.saturating_add(1);
                Err(FolderFault::Failed)
            }
        }
    }

    fn recv(&mut self, buf: &mut [u8]) -> Result<usize, Failed>
        requires connected { IsSome (wire_of self.old).line }
        ensures counts { Counts (wire_of self.old) (wire_of self.new) (is_err result) }
        ensures connected { IsSome (wire_of self.new).line }
        ensures placed { IfOk result (λ n. n ≤ length buf.new) }
        ensures asks { IsTrue (wire_of self.new).tells
            → AsksNothing (wire_of self.old) (wire_of self.new) }
        ensures told { IsTrue (wire_of self.new).tells
            → IfOk result (λ n. Hears (length buf.old) n buf.new (wire_of self.old) (wire_of self.new)) }
        ensures read { ReadConsumes (told_by N.Stream.Read.remaining self.old)
            (told_by N.Stream.Read.remaining self.new) result buf.new }
    {
        let Some(stream) = &mut self.stream else {
            unreachable!()
        };
        match stream.read(buf) {
            Ok(came) => Ok(came),
            Err(_) => {
                self.faults = self.faults.saturating_add(1);
                Err(Failed)
            }
        }
    }

    fn hang_up(&mut self) {
        self.stream = None;
    }
}

/// A host without the brackets that stand around an IPv6 address in a URL.
fn plain_host(host: &str) -> &str
    ensures bracketed { (inner : List ℕ) → host.now ≡ codes "[" ++ inner ++ codes "]"
        → result.now ≡ inner }
    ensures plain { starts_with nat_eq host.now (codes "[") ≡ false → result.now ≡ host.now }
{
    let Some(inner) = host.strip_prefix("[") else {
        return host;
    };
    inner.strip_suffix("]").unwrap_or(host)
}

/// Connects to the first of the addresses that answers in the time that all of them have.
pub(crate) fn connect<N: Net + Clock, A: ToSocketAddrs>(
    net: &N,
    place: &A,
) -> io::Result<N::Stream> {
    let addresses = place.to_socket_addrs(net)?;
    let patience = Duration::from_secs(PATIENCE);
    let start = Instant::now(net)?;
    let mut last = io::Error::from(ErrorKind::NotFound);
    for address in addresses {
        let left = patience.saturating_sub(start.elapsed(net)?);
        if left.is_zero() {
            return Err(io::Error::from(ErrorKind::TimedOut));
        }
        match TcpStream::connect_timeout(net, &address, left) {
            Ok(stream) => {
                stream.set_read_timeout(Some(patience))?;
                stream.set_write_timeout(Some(patience))?;
                return Ok(stream);
            }
            Err(fault) => last = fault,
        }
    }
    Err(last)
}
