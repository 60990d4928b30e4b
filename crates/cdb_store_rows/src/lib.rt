//! Worked rows of what the store is made of: names, disks, records, readers, lines, as tests alone.
#![tactic(auto)]

#[cfg(test)]
mod chains;
#[cfg(test)]
mod checks;
#[cfg(test)]
mod disks;
#[cfg(test)]
mod frames;
#[cfg(test)]
mod lines;
#[cfg(test)]
mod names;
#[cfg(test)]
mod option_words;
#[cfg(test)]
mod real_folders;
#[cfg(test)]
mod records;
#[cfg(test)]
mod recoveries;
#[cfg(test)]
mod requests;
#[cfg(test)]
mod stores;
