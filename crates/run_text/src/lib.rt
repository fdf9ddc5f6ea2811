//! Texts, line by line, in pieces of a fixed size, to any sink.
#![tactic(auto)]

mod lines;
mod orders;
mod pieces;
mod plans;
pub mod read_orders;
mod reading;
mod refused;
mod results;
mod rows;
mod shared;
mod status;
mod summary;
mod values;
mod words;

pub use lines::{rest_line, result_line, value_line};
pub use orders::{fails_line, order_line};
pub use pieces::{PIECE, Pieces, write_short};
pub use plans::{
    PlanLine, PlanTables, kind_word, op_or_none, plan_line, put_done, put_drawn, write_plan,
};
pub use reading::{ReadError, read_text};
pub use refused::{refusal_line, refuse, step_line};
pub use results::{ResultLists, put_result, write_result};
pub use rows::{Rows, put_listed, put_rows};
pub use shared::write_result_by;
pub use status::Status;
pub use summary::{sum_line, summary_head, write_summary};
pub use words::{Word, put_line};
