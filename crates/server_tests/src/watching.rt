//! What is told while the program serves: the connections that come and go.

use crate::holding::holds;
use commands::{Visitors, Visits};
use socket_server::{End, Observer};
use std::io::ErrorKind;
use std::net::SocketAddr;
use std::test::*;
use ua_types::Status;

// One comes and goes, and others are turned away, whose ends are no lines.
fn come_and_go<W: Observer>(observer: &mut W) {
    let one = SocketAddr::from(([192, 168, 0, 7], 51344));
    let two = SocketAddr::from(([192, 168, 0, 9], 40022));
    observer.connected(3, one);
    observer.refused(4, two);
    observer.crowded(two);
    observer.closed(4, End::Client);
    observer.closed(3, End::Client);
    observer.closed(3, End::Client);
}

// Each way in which a connection ends.
const ENDS: [End; 10] = [
    End::Client,
    End::Server(None),
    End::Server(Some(Status::BAD_SECURITY_POLICY_REJECTED)),
    End::Server(Some(Status(0x8001_0000))),
    End::Silent(600),
    End::Owed(4_194_305),
    End::Owed(1_050_007_009),
    End::Owed(usize::MAX),
    End::Failed(Some(ErrorKind::ConnectionReset)),
    End::Failed(None),
];

const TOLD_OF_ENDS: &[u8] = b"connection 3 from 192.168.0.7:51344
connection 4 from 192.168.0.9:40022 refused: as many as may be are open
a connection from 192.168.0.9:40022 turned away: as many as may be of its address are open
connection 3 from 192.168.0.7:51344 closed by the client
connection 5 from [::1]:4840
connection 5 from [::1]:4840 closed by the client
connection 5 from [::1]:4840
connection 5 from [::1]:4840 closed by the client
connection 5 from [::1]:4840
connection 5 from [::1]:4840 ended by the server: Bad_SecurityPolicyRejected
connection 5 from [::1]:4840
connection 5 from [::1]:4840 ended by the server: 0x80010000
connection 5 from [::1]:4840
connection 5 from [::1]:4840 let go: silent for 600 s
connection 5 from [::1]:4840
connection 5 from [::1]:4840 let go: owed 4,194,305 bytes
connection 5 from [::1]:4840
connection 5 from [::1]:4840 let go: owed 1,050,007,009 bytes
connection 5 from [::1]:4840
connection 5 from [::1]:4840 let go: owed 18,446,744,073,709,551,615 bytes
connection 5 from [::1]:4840
connection 5 from [::1]:4840 failed: ConnectionReset
connection 5 from [::1]:4840
connection 5 from [::1]:4840 failed
";

#[test]
fn connections_are_told(rt: HostRuntime) {
    let alloc = rt.alloc();
    let mut errors = Vec::new(alloc);
    let mut visits = Visits::new(alloc, false, false);
    let mut visitors = Visitors {
        errors: &mut errors,
        visits: &mut visits,
    };
    come_and_go(&mut visitors);
    for end in ENDS {
        visitors.connected(5, SocketAddr::from(([0, 0, 0, 0, 0, 0, 0, 1], 4840)));
        visitors.closed(5, end);
    }
    holds(&rt, "connections", errors.as_slice() == TOLD_OF_ENDS);
}
