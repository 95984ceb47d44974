//! Tests of devices that are made of readers and writers of std.
#![tactic(auto)]

#[cfg(test)]
mod failed_writes;
#[cfg(test)]
mod sizes;
#[cfg(test)]
mod std_devices;
