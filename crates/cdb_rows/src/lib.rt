//! Worked runs of the program over a disk in memory, as tests alone.
#![tactic(auto)]

#[cfg(test)]
mod audits;
#[cfg(test)]
mod built;
#[cfg(test)]
mod damage;
#[cfg(test)]
mod drawn;
#[cfg(test)]
mod failures;
#[cfg(test)]
mod files;
#[cfg(test)]
mod halted;
#[cfg(test)]
mod levels;
#[cfg(test)]
mod limits;
#[cfg(test)]
mod one_source;
#[cfg(test)]
mod raster;
#[cfg(test)]
mod refusals;
#[cfg(test)]
mod restarts;
#[cfg(test)]
mod script;
#[cfg(test)]
mod stops;
#[cfg(test)]
mod store;
#[cfg(test)]
mod tiff;
#[cfg(test)]
mod words;
