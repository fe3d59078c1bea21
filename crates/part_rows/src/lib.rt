//! Tests of the parts of a cycle, and of what comes from outside: rows of values that no clause names, and each call once where memory is there.
#![tactic(auto)]

#[cfg(test)]
mod config_table_rows;
#[cfg(test)]
mod data_exchange_rows;
#[cfg(test)]
mod element_notes_rows;
#[cfg(test)]
mod element_ports_rows;
#[cfg(test)]
mod fault_script_rows;
#[cfg(test)]
mod frame_format_rows;
#[cfg(test)]
mod ftpp_outside_rows;
#[cfg(test)]
mod link_fabric_rows;
#[cfg(test)]
mod pattern_exchange_rows;
#[cfg(test)]
mod processor_buffers_rows;
#[cfg(test)]
mod rejoin_rows;
#[cfg(test)]
mod scoreboard_rows;
#[cfg(test)]
mod table_update_rows;
#[cfg(test)]
mod two_round_rows;
