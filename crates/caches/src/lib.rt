// One order on a line, on main memory and the three tables in bytes: an access or a flush by a port, a read or a write by a device.
#![tactic(auto)]

pub mod access;
pub mod device;
pub mod flush;
mod memory;
