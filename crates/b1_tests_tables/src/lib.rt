//! Tests of a peer's tables and of what one peer keeps: that calls which may want memory succeed where there is enough, and
//! that both kinds of queue and both kinds of pool answer alike. They stand here, since a crate with tests of its own is
//! proved twice.
#![tactic(auto)]

#[cfg(test)]
mod carried;
#[cfg(test)]
mod costs;
#[cfg(test)]
mod dead;
#[cfg(test)]
mod entries;
#[cfg(test)]
mod handles;
#[cfg(test)]
mod mail;
#[cfg(test)]
mod nodes;
#[cfg(test)]
mod pools;
#[cfg(test)]
mod queues;
#[cfg(test)]
mod quotas;
#[cfg(test)]
mod stores;
