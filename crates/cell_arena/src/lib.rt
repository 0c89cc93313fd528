//! The cells of a shared object's list, named by their index.
#![tactic(auto)]

mod cell;
mod cell_id;
mod cells;
mod column_cells;
mod columns;
mod fault;
mod row_cells;
mod rows;

pub use cell_id::{CellId, of_is_injective};
pub use cells::Cells;
pub use column_cells::ColumnCells;
pub use fault::ArenaFault;
pub use row_cells::RowCells;
