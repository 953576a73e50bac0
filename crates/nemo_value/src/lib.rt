//! Values: fields, texts, names, records and expressions, with the lists that hold them.
#![tactic(auto)]

mod bucket;
mod evaluate;
mod expr;
mod field;
mod keyed;
mod list;
mod memory;
mod name;
mod record;
mod row;
mod same;
mod sorting;
mod table;
mod text;
mod try_copy;

pub use bucket::bucket_of;
pub use evaluate::{EvalFault, eval, value_of};
pub use expr::{Expr, Kind, Oper};
pub use field::Field;
pub use list::List;
pub use memory::NoMemory;
pub use name::{Name, NameRefused};
pub use record::{BadWidth, MAX_FIELDS, Record, SinkRows};
pub use row::Row;
pub use same::Same;
pub use sorting::{ascending_law, sort_law, sort_records, sorted_rows};
pub use sqlite_items::{Boxed, Items};
pub use table::{Table, push_copies, records_of, rows_of};
pub use text::{LongText, Text};
pub use try_copy::TryCopy;
