//! The site: its history, and what stands after it. The next entry is planned, which looks for everything that it needs,
//! and then committed, which can't fail; what was committed last can be taken back, and an entry that was read back is
//! adopted exactly where it may come next.
//!
//! A deed stands in memory once, in the memo of what each station asked and was told. Beside it the site keeps a small
//! record of each entry.
#![tactic(auto)]

mod committing;
mod keeping;
mod kept;
mod laws;
mod looking;
mod planned;
mod planning;
mod site;
mod unlawful;
mod views;

pub use batch_report::{BatchView, LineRow, Lines};
pub use laws::{the_first_has_room, the_trade_holds, there_and_back};
pub use move_list::Moves;
pub use planned::{Committed, Planned};
pub use site::Site;
pub use site_deeds::PlanFault;
pub use unlawful::Unlawful;
pub use views::{ItemView, Logged, UnitView};
