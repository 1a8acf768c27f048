use crate::dialer::connect;
use std::net::{Net, SocketAddr, TcpListener, ToSocketAddrs};
use std::test::Fail;
use std::{array, io};

/// A host of two addresses.
#[derive(Drop)]
struct TwoAddresses {
    first: SocketAddr,
    second: SocketAddr,
}

impl ToSocketAddrs for TwoAddresses {
    type Iter = array::IntoIter<SocketAddr, 2>;

    fn to_socket_addrs<N: Net>(&self, _net: &N) -> io::Result<array::IntoIter<SocketAddr, 2>> {
        Ok([self.first, self.second].into_iter())
    }
}

#[test]
fn a_second_address_is_tried(rt: HostRuntime) -> Result<(), Fail> {
    let closed = TcpListener::bind(&rt, "127.0.0.1:0")?;
    let first = closed.local_addr()?;
    drop(closed);
    let listener = TcpListener::bind(&rt, "127.0.0.1:0")?;
    let second = listener.local_addr()?;
    assert!(rt; connect(&rt, &TwoAddresses { first, second }).is_ok());
    drop(listener);
    assert!(rt; connect(&rt, &TwoAddresses { first, second }).is_err());
    Ok(())
}
