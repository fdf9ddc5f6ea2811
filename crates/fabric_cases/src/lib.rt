//! Wires and turns between threads, messages as bytes and shared calls, each alone; and fabrics of worked texts: scripts whose calls are
//! made by one caller, and workers on threads, with gates that watch them.
#![tactic(auto)]

#[cfg(test)]
mod alone;
#[cfg(test)]
mod answers;
#[cfg(test)]
mod gates;
#[cfg(test)]
mod hands;
#[cfg(test)]
mod jobs;
#[cfg(test)]
mod scripts;
#[cfg(test)]
mod threads;
#[cfg(test)]
mod waves;
#[cfg(test)]
mod wires;
