// Cases of the statement, and of the decimal numbers in it. It has tests only.
#![tactic(auto)]

#[cfg(test)]
mod decimals;
#[cfg(test)]
mod figures;
#[cfg(test)]
mod files;
#[cfg(test)]
mod refusals;
