//! Tests of the files' formats: records, scripts, their texts, and reports. They stand here, since a crate with tests of its
//! own is proved twice, and the crates of the formats take long.
#![tactic(auto)]

#[cfg(test)]
mod records;
#[cfg(test)]
mod reports;
#[cfg(test)]
mod scripts;
#[cfg(test)]
mod versions;
#[cfg(test)]
mod words;
