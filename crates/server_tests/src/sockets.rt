//! What clients get to see over sockets. The loop takes turns in the same thread, between what the clients write and what
//! they read. `scripts/checks/sockets_test.py` and `plant_test.py` try the rest, on the program itself.

use crate::bytes_due::{ACKNOWLEDGE, HELLO};
use crate::events::base_server;
use crate::holding::holds;
use server_messages::NoKeeper;
use socket_server::{KeptServer, Serve, Turns, Unobserved};
use std::alloc::Global;
use std::io::{ErrorKind, Read, Write};
use std::net::{SocketAddr, TcpStream};
use std::sync::Wait;
use std::test::*;
use std::time::Clock;

// What a client says behind its Hello: an opening, GetEndpoints, and the end of the channel.
const ASKED: &[u8] =
    b"OPNF\x84\0\0\0\0\0\0\0/\0\0\0http://opcfoundation.org/UA/SecurityPolicy#None\xff\xff\xff\xff\xff\xff\xff\xff\x01\0\0\0\x01\0\0\0\x01\0\xbe\x01\0\0\0\0\0\0\0\0\0\0\x01\0\0\0\0\0\0\0\xff\xff\xff\xff\0\0\0\0\0\0\0\0\0\0\0\0\0\0\0\x01\0\0\0\xff\xff\xff\xff\x80\xee6\0MSGFE\0\0\0\x01\0\0\0\x01\0\0\0\x02\0\0\0\x02\0\0\0\x01\0\xac\x01\0\0\0\0\0\0\0\0\0\0\x02\0\0\0\0\0\0\0\xff\xff\xff\xff\0\0\0\0\0\0\0\xff\xff\xff\xff\xff\xff\xff\xff\xff\xff\xff\xffCLOF9\0\0\0\x01\0\0\0\x01\0\0\0\x03\0\0\0\x03\0\0\0\x01\0\xc4\x01\0\0\0\0\0\0\0\0\0\0\x03\0\0\0\0\0\0\0\xff\xff\xff\xff\0\0\0\0\0\0\0";

// What it is answered, at a time of 0: an Acknowledge, the answer to the opening, and that to GetEndpoints.
const ANSWERED: &[u8] =
    b"ACKF\x1c\0\0\0\0\0\0\0\0\0\x01\0\0\0\x01\0\0\0\x10\0@\0\0\0OPNF\x87\0\0\0\x01\0\0\0/\0\0\0http://opcfoundation.org/UA/SecurityPolicy#None\xff\xff\xff\xff\xff\xff\xff\xff\x01\0\0\0\x01\0\0\0\x01\0\xc1\x01\0\0\0\0\0\0\0\0\x01\0\0\0\0\0\0\0\0\xff\xff\xff\xff\0\0\0\0\0\0\0\x01\0\0\0\x01\0\0\0\0\0\0\0\0\0\0\0\x80\xee6\0\xff\xff\xff\xffMSGFC\x01\0\0\x01\0\0\0\x01\0\0\0\x02\0\0\0\x02\0\0\0\x01\0\xaf\x01\0\0\0\0\0\0\0\0\x02\0\0\0\0\0\0\0\0\xff\xff\xff\xff\0\0\0\x01\0\0\0\x18\0\0\0opc.tcp://localhost:4840\x0c\0\0\0urn:uaserver\xff\xff\xff\xff\x02\x08\0\0\0uaserver\0\0\0\0\xff\xff\xff\xff\xff\xff\xff\xff\x01\0\0\0\x18\0\0\0opc.tcp://localhost:4840\xff\xff\xff\xff\x01\0\0\0/\0\0\0http://opcfoundation.org/UA/SecurityPolicy#None\x01\0\0\0\x09\0\0\0anonymous\0\0\0\0\xff\xff\xff\xff\xff\xff\xff\xff\xff\xff\xff\xffA\0\0\0http://opcfoundation.org/UA-Profile/Transport/uatcp-uasc-uabinary\0";

// What a client is told whose connection is open as the server ends (Error, IEC 62541-6, 7.1.2): Bad_Shutdown, and no reason.
const SHUT_DOWN: &[u8] = b"ERRF\x10\0\0\0\0\0\x0c\x80\xff\xff\xff\xff";

// Whether this was read, but for the times: of the answer to the opening, of its token, and of that to GetEndpoints.
fn is_answered(read: &[u8]) -> bool {
    read.len() == ANSWERED.len()
        && read.get(..111) == ANSWERED.get(..111)
        && read.get(119..147) == ANSWERED.get(119..147)
        && read.get(155..191) == ANSWERED.get(155..191)
        && read.get(199..) == ANSWERED.get(199..)
}

// A server whose values nobody keeps.
fn unkept_server(alloc: Global) -> Result<KeptServer<NoKeeper>, Fail> {
    Ok(KeptServer::new(base_server(alloc)?, NoKeeper))
}

// A client that has said this.
fn client(rt: &HostRuntime, address: SocketAddr, said: &[&[u8]]) -> Result<TcpStream, Fail> {
    let mut stream = TcpStream::connect(rt, address)?;
    for part in said {
        stream.write_all(part)?;
    }
    Ok(stream)
}

// What is to be read without waiting, to the end or up to what is still to come.
fn waiting(alloc: Global, mut stream: &TcpStream) -> Result<Vec<u8>, Fail> {
    stream.set_nonblocking(true)?;
    let mut read = Vec::new(alloc);
    match stream.read_to_end(&mut read) {
        Ok(_) => Ok(read),
        Err(error) if error.kind() == ErrorKind::WouldBlock => Ok(read),
        Err(_) => Err(Fail::new("it failed")),
    }
}

// Whether this is what the client of an open connection reads once the server has ended: an Acknowledge, and then that the
// server shuts down.
fn is_told_the_end(read: &[u8]) -> bool {
    match read.strip_prefix(ACKNOWLEDGE) {
        Some(rest) => rest == SHUT_DOWN,
        None => false,
    }
}

// The loop takes turns until one of two connections is closed; then the server ends.
fn takes_turns<R: Clock + Wait>(rt: &R, alloc: Global, serve: &mut Serve) -> Result<bool, Fail> {
    let mut server = unkept_server(alloc)?;
    let is_done = serve
        .run(rt, &mut server, &mut Unobserved, &mut Turns(8))
        .is_ok();
    Ok(is_done && serve.len() == 1)
}

// What the first client reads until its end.
fn all_of(alloc: Global, mut stream: TcpStream) -> Result<Vec<u8>, Fail> {
    let mut read = Vec::new(alloc);
    stream.read_to_end(&mut read)?;
    Ok(read)
}

// Whether one of two clients is left when the other has ended its channel, and each has read what it is due, up to the
// server's end. The clients' sockets are the host's.
fn are_served<R: Clock + Wait>(
    host: &HostRuntime,
    rt: &R,
    alloc: Global,
    serve: &mut Serve,
) -> Result<bool, Fail> {
    let address = serve.address()?;
    let one = client(host, address, &[HELLO, ASKED])?;
    let two = client(host, address, &[HELLO])?;
    let is_left = takes_turns(rt, alloc, serve)?;
    let told = waiting(alloc, &two)?;
    let answered = all_of(alloc, one)?;
    Ok(is_left && is_told_the_end(told.as_slice()) && is_answered(answered.as_slice()))
}

#[test]
fn two_sockets(rt: HostRuntime) -> Result<(), Fail> {
    let alloc = rt.alloc();
    let mut serve = Serve::bind(&rt, alloc, 0)?;
    holds(&rt, "both", are_served(&rt, &rt, alloc, &mut serve)?);
    Ok(())
}
