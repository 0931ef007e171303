//! Tests of what the built program can't be brought to by a command line alone: arguments as text, the status and the line of each
//! end, and flushes that fail.
#![tactic(auto)]

#[cfg(test)]
mod argument_texts;
#[cfg(test)]
mod conclusions;
#[cfg(test)]
mod failing_writer;
#[cfg(test)]
mod flushes;
#[cfg(test)]
mod given_files;
#[cfg(test)]
mod losing_writer;
