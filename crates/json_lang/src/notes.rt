//! Why a description in JSON is refused: the place in the JSON, and what was expected there.

mod explain;
mod forms;
mod items;
mod paths;

pub use explain::explain_json;
