//! Natives in boxes: methods of `java.base` that the machine asks of an object which it was lent.
//!
//! What the arguments of a native decide is a row of the table of natives; the rest comes from outside.
#![tactic(auto)]

mod args;
mod boxes;
mod clock;
mod count;
mod kinds;
mod native;
mod numbers;
mod plain;
mod properties;
mod pure_rows;
mod script_native;
mod strings;
mod units;

pub use boxes::{ask, find_box};
pub use clock::Clock;
pub use kinds::is_taken;
pub use native::{NativeEnd, NativeOp};
pub use plain::Plain;
pub use properties::Properties;
pub use pure_rows::{
    Row1, Row2, Row3, Row4, Row5, Row6, Row7, Row8, Row9, Row10, Row11, Row12, Row13, Row14, Row15,
    Row16, Row17, Row18, Row19, Row20, Row21,
};
pub use script_native::ScriptNative;
