//! Tests of the texts: configuration files, scripts, reports.
#![tactic(auto)]

#[cfg(test)]
mod config_text_rows;
#[cfg(test)]
mod report_text_rows;
#[cfg(test)]
mod script_text_rows;
