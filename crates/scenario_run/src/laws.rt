//! What holds of every scenario.

ghost use Rattle.std.specs.Prelude.{◌≡◌, ℕ, ◌+◌, ◌<◌, ◌≤◌, ◌^◌, Bool, List, Option, IfSome, IfOk, IsOkAnd};
ghost use Rattle.std.specs.List.{concat};
ghost use Rattle.std.specs.Str.{IsUtf8};
ghost use Rattle.ua_transport.specs.Hellos.{hello_reading};
ghost use Rattle.ua_transport.specs.declared.frame.MessageType.TheVariants.{Hello, OpenSecureChannel, CloseSecureChannel};
ghost use Rattle.ua_transport.specs.Headers.{IsWritable, chunk_header_reading, opening_header_reading};
ghost use Rattle.ua_transport.specs.declared.headers.ChunkHeader.{ChunkHeader};
ghost use Rattle.scenario_run.specs.Pieces.{pieces_of};
ghost use Rattle.scenario_run.specs.Reading.{IsReadAgain, IsAmple, SendsFrame, hello_said, opening_said, closing_said, AllCounted, AfterCounted};
ghost use Rattle.scenario_run.specs.Members.{nothing_sent, client_of, assembled_of};
ghost use Rattle.scenario_run.specs.declared.assembler.Assembler.{Assembler};
ghost use Rattle.scenario_text.specs.declared.choices.ChannelRequest.{ChannelRequest};
ghost use Rattle.scenario_text.specs.declared.statement.Statement.{Statement};
ghost use Rattle.scenario_text.specs.declared.statement.Statement.TheVariants as statements;

/// Bytes that are cut into pieces are the same bytes, one piece behind the other.
pub fn pieces_are_whole()
    ensures { (size : ℕ) (bytes : List ℕ) → concat (pieces_of size bytes) ≡ bytes }
{}

/// The chunks of a request are read as whole frames, which join to the one message with its id and body; those of
/// a request that is given up join to none.
pub fn requests_are_read_again()
    ensures { (aborted : Bool) (limit : ℕ) (header : ChunkHeader) (room : ℕ) (body : List ℕ) → 0 < room → room + 24 ≤ limit → 32 ≤ limit →
        limit < 2 ^ 32 → IsWritable header → IsReadAgain aborted limit header room body }
{}

/// A `hel`, an `opn` and a `clo` each come to one frame of their type, with nothing behind it. The first is read as
/// its Hello, the others as the client's numbers and the body of the request. Only a URL can be too long to be sent.
pub fn channels_are_read_again()
    ensures hello { (limit : ℕ) (a : Assembler) (connection : ℕ) (url : Option (List ℕ)) → IsAmple limit → IfSome url IsUtf8 →
        IfOk (assembled_of a (statements.Hello connection url)) (SendsFrame limit connection Hello hello_reading (hello_said url)) }
    ensures opening { (limit : ℕ) (a : Assembler) (connection : ℕ) (request : ChannelRequest) → IsAmple limit → AllCounted a →
        IsOkAnd (assembled_of a (statements.OpenChannel connection request))
        (SendsFrame limit connection OpenSecureChannel opening_header_reading (opening_said (client_of a connection) request)) }
    ensures closing { (limit : ℕ) (a : Assembler) (connection : ℕ) → IsAmple limit → AllCounted a →
        IsOkAnd (assembled_of a (statements.CloseChannel connection))
        (SendsFrame limit connection CloseSecureChannel chunk_header_reading (closing_said (client_of a connection))) }
{}

/// Whatever lines come, the next chunk of each client has a header that can be written.
pub fn headers_are_writable()
    ensures first { AllCounted nothing_sent }
    ensures next { (a : Assembler) (statement : Statement) → AllCounted a → AfterCounted (assembled_of a statement) }
{}
