// The adapters over the system's TCP, on the loopback address.
use gw_io::{Source, write_all};
use net_io::{AnnouncedNet, Net, NoPause, Pause, Port, SystemPause, TcpNet, TcpPort};
use std::alloc::Global;
use std::io::{Read, Write};
use std::net::{Ipv4Addr, SocketAddr, SocketAddrV4, TcpStream};
use std::rt::Clock;
use std::test::Fail;
use std::thread::join;
use std::time::{Duration, Instant};
use std::{io, net};

// More than both sockets hold, so it stays unread where nobody drains it.
const BODY: usize = 64 << 20;

// Takes one connection, reads a first piece of it, replies and goes.
fn reply_early<R: Clock + Copy + Send>(alloc: Global, port: &mut TcpPort<R>) -> bool {
    let Ok(Some((mut source, mut sink))) = port.accept(alloc) else {
        return false;
    };
    let read = source.read(&mut [0; 16]);
    read.is_ok() && write_all(&mut sink, b"no").is_ok()
}

// Sends a whole body, and only then reads.
fn send_whole<R>(rt: &R, alloc: Global, port: u16) -> io::Result<Vec<u8>>
where
    R: net::Net<Stream = TcpStream>,
{
    let there = SocketAddr::V4(SocketAddrV4::new(Ipv4Addr::new(127, 0, 0, 1), port));
    let mut stream = rt.connect(there)?;
    let body = vec![in alloc; 7; BODY]?;
    stream.write_all(&body)?;
    let mut reply = Vec::new(alloc);
    stream.read_to_end(&mut reply)?;
    Ok(reply)
}

// Without the drain the client would be told that the connection was reset.
#[test]
fn a_reply_before_the_end_of_a_body_is_not_lost(rt: HostRuntime) -> Result<(), Fail> {
    let alloc = rt.alloc();
    let mut net = AnnouncedNet::new(rt, TcpNet::new(rt, Some(Duration::from_secs(20))));
    let mut port = net.listen(0)?;
    let number = port.local_port()?;
    let (replied, reply) = join(
        &rt,
        || send_whole(&rt, alloc, number),
        || reply_early(alloc, &mut port),
    );
    net.close(port);
    assert!(rt; reply);
    assert_eq!(rt; replied?.as_slice(), b"no".as_slice());
    Ok(())
}

#[test]
fn a_port_that_is_taken_is_not_opened(rt: HostRuntime) -> Result<(), Fail> {
    let mut net = TcpNet::new(rt, None);
    let port = net.listen(0)?;
    let number = port.local_port()?;
    assert!(rt; net.listen(number).is_err());
    net.close(port);
    Ok(())
}

#[test]
fn a_pause_takes_its_time(rt: HostRuntime) -> Result<(), Fail> {
    let start = Instant::now(&rt)?;
    SystemPause::new(rt, 30).pause();
    assert!(rt; start.elapsed(&rt)? >= Duration::from_millis(30));
    NoPause.pause();
    Ok(())
}
