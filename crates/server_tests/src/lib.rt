//! Tests of the server over sockets and streams, for what no line of `worked_examples` can say.
//!
//! Expected bytes are spelled by hand from the standard's layouts (IEC 62541-6, 5 and 6.7).
#![tactic(auto)]

#[cfg(test)]
mod bytes_due;
#[cfg(test)]
mod events;
#[cfg(test)]
mod holding;
#[cfg(test)]
mod kept;
#[cfg(test)]
mod pipes;
#[cfg(test)]
mod sockets;
#[cfg(test)]
mod streams;
#[cfg(test)]
mod watching;
