//! Tests of the public calls around a whole run: the journal, its report, scripts, the world and
//! the program's own call.
#![tactic(auto)]

#[cfg(test)]
mod journal;
#[cfg(test)]
mod reader;
#[cfg(test)]
mod report_lines;
#[cfg(test)]
mod runs;
#[cfg(test)]
mod world;
