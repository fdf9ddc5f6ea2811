//! Tests of the types that all share and of the parts of an interface, each part alone: that its calls succeed with ample memory,
//! and answers by hand. Here, so that those crates are proved once and not a second time with their tests.

#[cfg(test)]
mod counting;
#[cfg(test)]
mod deliveries;
#[cfg(test)]
mod edges;
#[cfg(test)]
mod headers;
#[cfg(test)]
mod marks;
#[cfg(test)]
mod operations;
#[cfg(test)]
mod patterns;
#[cfg(test)]
mod queues;
#[cfg(test)]
mod regions;
#[cfg(test)]
mod stores;
#[cfg(test)]
mod types;
#[cfg(test)]
mod users;
