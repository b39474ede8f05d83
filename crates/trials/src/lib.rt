//! The worked examples, as tests of the public calls of the other crates.
#![tactic(auto)]

#[cfg(test)]
mod admitting;
#[cfg(test)]
mod checks;
#[cfg(test)]
mod day_sheets;
#[cfg(test)]
mod lists;
#[cfg(test)]
mod opening;
#[cfg(test)]
mod pairs_and_meets;
#[cfg(test)]
mod pasts;
#[cfg(test)]
mod reading;
#[cfg(test)]
mod sample;
#[cfg(test)]
mod table_files;
#[cfg(test)]
mod withdrawing;
