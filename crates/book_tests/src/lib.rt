// Tests of the book, against figures and causes worked out by hand: sheets with one fault each, every cause of every call, margins.
#![tactic(auto)]

#[cfg(test)]
mod calls;
#[cfg(test)]
mod examples;
#[cfg(test)]
mod runs;
#[cfg(test)]
mod setting;
#[cfg(test)]
mod sheet_faults;
#[cfg(test)]
mod sheets;
