//! Tests of the libraries, through public items alone, for what no line of `worked_examples` can say: limits
//! that no node file or scenario reaches, and what neither a client nor a trace sees.
#![tactic(auto)]

#[cfg(test)]
mod chunks;
#[cfg(test)]
mod frames;
#[cfg(test)]
mod histories;
#[cfg(test)]
mod holding;
#[cfg(test)]
mod peers;
#[cfg(test)]
mod queues;
#[cfg(test)]
mod sessions;
#[cfg(test)]
mod spaces;
#[cfg(test)]
mod types;
#[cfg(test)]
mod values;
