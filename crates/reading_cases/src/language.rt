//! Whole texts of the description language, and what reading them answers: the limits, the least and greatest values, and
//! each refusal at each kind of line of both versions; and what texts mean. The expected answers are another program's, written
//! apart from this one, or by hand. They stand in tables beside the tests; `texts` says how a case is tried.

#[cfg(test)]
mod answers;
#[cfg(test)]
mod limits;
#[cfg(test)]
mod meanings;
#[cfg(test)]
mod refusals;
#[cfg(test)]
mod texts;
#[cfg(test)]
mod values;
#[cfg(test)]
mod worked;
