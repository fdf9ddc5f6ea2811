//! Texts of plans and of orders as they are read and drawn, and where they are refused. Here, so that those crates are proved once and
//! not a second time with their tests.

#[cfg(test)]
mod answers;
#[cfg(test)]
mod drawing;
#[cfg(test)]
mod reading;
