// Tests of the libraries below, in a crate of their own so that each library is proved once.
#![tactic(auto)]

#[cfg(test)]
mod arithmetic;
#[cfg(test)]
mod checks;
#[cfg(test)]
mod comparisons;
#[cfg(test)]
mod images;
#[cfg(test)]
mod instructions;
#[cfg(test)]
mod listings;
#[cfg(test)]
mod shifts;
