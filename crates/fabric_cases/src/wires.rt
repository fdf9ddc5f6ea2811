//! Wires and turns between threads: a full wire, an empty wire, what is left at the closing, a slot that is out until it is given
//! back, and two threads at each; messages as bytes; calls that threads share. Here, so that those crates are proved once and not a
//! second time with their tests.

#[cfg(test)]
mod codec;
#[cfg(test)]
mod sharing;
#[cfg(test)]
mod turns;
#[cfg(test)]
mod wires;
