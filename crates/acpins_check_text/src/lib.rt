//! What `check` prints: a line for each finding, alike ones on one, and their counts.
//!
//! ```text
//! warning held \_SB.PCI0.LPCB.EC._Q10: returns with \_SB.PCI0.LPCB.EC.MUT0 acquired (who waits for it waits on) at 0:4711 line 3
//! error no-name \_SB.I2C0._CRS .. \_SB.I2C3._CRS (4): SDRG is declared nowhere (Linux aborts the method: AE_NOT_FOUND) at 1:80 line 2
//! 1 error, 1 warning, 0 remarks
//! ```
#![tactic(auto)]

mod line_folds;
mod order;
mod text;

pub use line_folds::folds;
pub use order::in_order;
pub use text::{CheckOptions, CheckText, check_text};
