// Cases of the unit file and of its text form. It has tests only.
#![tactic(auto)]

#[cfg(test)]
mod reading;
#[cfg(test)]
mod text;
#[cfg(test)]
mod writing;
