//! Messages spelled byte by byte, which tests of streams and of sockets share.

/// Hello of protocol version 0, with buffers of 65,536 bytes and no limits.
pub(crate) const HELLO: &[u8] =
    b"HELF8\0\0\0\0\0\0\0\0\0\x01\0\0\0\x01\0\0\0\0\0\0\0\0\0\x18\0\0\0opc.tcp://localhost:4840";

/// Its Acknowledge: 65,536 bytes in both directions, messages of 1,048,576 bytes, and 64 chunks.
pub(crate) const ACKNOWLEDGE: &[u8] =
    b"ACKF\x1c\0\0\0\0\0\0\0\0\0\x01\0\0\0\x01\0\0\0\x10\0@\0\0\0";

/// That Hello, an opening, GetEndpoints and the end of the channel: 56, 132, 69 and 57 bytes.
pub(crate) const REQUESTS: &[u8] =
    b"HELF8\0\0\0\0\0\0\0\0\0\x01\0\0\0\x01\0\0\0\0\0\0\0\0\0\x18\0\0\0opc.tcp://localhost:4840\
OPNF\x84\0\0\0\0\0\0\0\x2f\0\0\0http://opcfoundation.org/UA/SecurityPolicy#None\xff\xff\xff\xff\xff\xff\xff\xff\
\x01\0\0\0\x01\0\0\0\x01\0\xbe\x01\0\0\0\0\0\0\0\0\0\0\x01\0\0\0\0\0\0\0\xff\xff\xff\xff\0\0\0\0\0\0\0\
\0\0\0\0\0\0\0\0\x01\0\0\0\xff\xff\xff\xff\x80\xee\x36\0\
MSGF\x45\0\0\0\x01\0\0\0\x01\0\0\0\x02\0\0\0\x02\0\0\0\x01\0\xac\x01\0\0\0\0\0\0\0\0\0\0\x02\0\0\0\
\0\0\0\0\xff\xff\xff\xff\0\0\0\0\0\0\0\xff\xff\xff\xff\xff\xff\xff\xff\xff\xff\xff\xff\
CLOF\x39\0\0\0\x01\0\0\0\x01\0\0\0\x03\0\0\0\x03\0\0\0\x01\0\xc4\x01\0\0\0\0\0\0\0\0\0\0\x03\0\0\0\
\0\0\0\0\xff\xff\xff\xff\0\0\0\0\0\0\0";

/// Their answers: the Acknowledge, and the responses to the opening and to GetEndpoints, of 28, 135 and 323 bytes.
pub(crate) const ANSWERS: &[u8] = b"ACKF\x1c\0\0\0\0\0\0\0\0\0\x01\0\0\0\x01\0\0\0\x10\0@\0\0\0\
OPNF\x87\0\0\0\x01\0\0\0\x2f\0\0\0http://opcfoundation.org/UA/SecurityPolicy#None\xff\xff\xff\xff\xff\xff\xff\xff\
\x01\0\0\0\x01\0\0\0\x01\0\xc1\x01\0\0\0\0\0\0\0\0\x01\0\0\0\0\0\0\0\0\xff\xff\xff\xff\0\0\0\
\0\0\0\0\x01\0\0\0\x01\0\0\0\0\0\0\0\0\0\0\0\x80\xee\x36\0\xff\xff\xff\xff\
MSGF\x43\x01\0\0\x01\0\0\0\x01\0\0\0\x02\0\0\0\x02\0\0\0\x01\0\xaf\x01\0\0\0\0\0\0\0\0\x02\0\0\0\
\0\0\0\0\0\xff\xff\xff\xff\0\0\0\x01\0\0\0\x18\0\0\0opc.tcp://localhost:4840\x0c\0\0\0urn:uaserver\xff\xff\xff\xff\
\x02\x08\0\0\0uaserver\0\0\0\0\xff\xff\xff\xff\xff\xff\xff\xff\x01\0\0\0\x18\0\0\0opc.tcp://localhost:4840\
\xff\xff\xff\xff\x01\0\0\0\x2f\0\0\0http://opcfoundation.org/UA/SecurityPolicy#None\x01\0\0\0\x09\0\0\0anonymous\
\0\0\0\0\xff\xff\xff\xff\xff\xff\xff\xff\xff\xff\xff\xff\x41\0\0\0\
http://opcfoundation.org/UA-Profile/Transport/uatcp-uasc-uabinary\0";
