//! Tests of crates below the transaction component. They call public functions alone, and cost less
//! here than where each crate is proved a second time for its tests:
//!
//! | Module | Tests |
//! |---|---|
//! | `slot_tests` | `access_slots`: lock sets, conflicts, declarations |
//! | `number_tests` | `request_numbers`: numbers that are answered in another order |
//! | `lock_tests` | `lock_table`: waits and releases, and all answers beside those of a plain table |
//! | `partition_tests` | `partitions`: the finest partitions, how workers are spread |
//! | `event_tests` | `tc_log`: the bytes of events |
//! | `picture_tests` | `log_picture`: transactions, lanes, numbers, records, and what is drawn |
//! | `store_tests` | `data_component`: each answer, repeated and late wires, restarts |
//! | `frame_tests` | `frame_file`: each truncation and each changed byte of a file |
//! | `disk_tests` | `disk_file`: a file of the system |
//! | `object_tests` | `object_file`: an object of clang's, each fault, and each changed byte |
//! | `line_tests` | `source_lines`: the lines of an object of clang's, and each changed byte |
//!
//! What they compare stands in `checks`.
//!
//! `code_tests` has those of `verifier`, `component_tests` those that need `samples` or the transaction component.
#![tactic(auto)]

#[cfg(test)]
mod checks;
#[cfg(test)]
mod disk_tests;
#[cfg(test)]
mod event_tests;
#[cfg(test)]
mod frame_tests;
#[cfg(test)]
mod line_tests;
#[cfg(test)]
mod lock_tests;
#[cfg(test)]
mod number_tests;
#[cfg(test)]
mod object_tests;
#[cfg(test)]
mod partition_tests;
#[cfg(test)]
mod picture_tests;
#[cfg(test)]
mod plain_table;
#[cfg(test)]
mod slot_tests;
#[cfg(test)]
mod store_tests;
