//! Control: whether the motor is armed, with what demand, and when control is lost.
//!
//! Control hears of good frames, of detections and of control ticks, one each 2400 ticks of 48 MHz.
//! It arms after thirty frames with value 0, ramps the demand up to what the newest throttle frame
//! asks for, and loses control where frames stop or a mark is set.
#![tactic(auto)]

mod control;
mod decision;
mod laws;
mod marks;
mod throttle;

pub use control::Control;
pub use decision::Ticked;
pub use laws::{drive_follows_frames, silence_ends_drive};
pub use marks::Marks;
pub use throttle::on_ticks;
